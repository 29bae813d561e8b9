// A frame of a table text: what it makes of the table read so far.
#![tactic(auto)]

ghost use Rattle.std.specs.Prelude.{◌≡◌, List, ℕ, ◌+◌, ◌≤◌, length, get_or};
ghost use Rattle.std.proofs.Math.Seq.{slice};
ghost use Rattle.machine.specs.Machine.{Table};
ghost use Rattle.text.specs.Frames as text;
ghost use Rattle.head_frames.specs.Staged.{AtRules, Staged, Stepped};

use fields::{Cursor, Fault};
use head_frames::{Note, Phase, Stage};

// Frame 04: nothing more; the end.
fn end_frame(st: Stage, cursor: Cursor) -> Result<Stage, Fault>
    requires { cursor.at ≡ st.used + 1 }
    ensures { (R : List Note) (M : Table) → AtRules cursor.entry.frames.now R st M → get_or cursor.entry.frames.now st.used 0 ≡ 4
        → Stepped cursor.entry.frames.now R
        (text.whole (text.end_frame M (slice cursor.entry.at cursor.entry.end cursor.entry.frames.now))) result }
{
    cursor.finish()?;
    Ok(Stage {
        phase: Phase::Ended,
        used: cursor.end,
        ..st
    })
}

// What a frame of n bytes, which stand behind those that are used, makes of the stage.
pub fn step(
    st: Stage,
    frames: &[u8; layout::FRAMES],
    rules: &mut [Note; layout::RULES],
    n: usize,
) -> Result<Stage, Fault>
    requires n_bound { st.used + n ≤ 16384 }
    requires states_bound { st.phase ≡ Phase.Rules → (st.head.states ≤ 64) × (st.head.symbols ≤ 64) }
    ensures { (s : text.Stage) → Staged frames.now rules.old st s
        → Stepped frames.now rules.new (text.step s (slice st.used (st.used + n) frames.now)) result }
{
    if n == 0 {
        return Err(Fault::EmptyLine);
    }
    let cursor = Cursor {
        frames,
        at: st.used + 1,
        end: st.used + n,
    };
    match (frames[st.used], st.phase) {
        (1, Phase::Symbols) => head_frames::symbol_frame(st, cursor),
        (2, Phase::Symbols) if 0 < st.head.symbols => head_frames::start_frame(st, cursor),
        (3, Phase::Rules) => rule_frames::rule_frame(st, cursor, rules),
        (4, Phase::Rules) => end_frame(st, cursor),
        _ => Err(Fault::OutOfOrder),
    }
}
