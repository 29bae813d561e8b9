// The frame of a rule: what is kept of the rule, and the table with it.
#![tactic(auto)]

ghost use Rattle.std.specs.Prelude.{◌≡◌, ◌+◌, ◌*◌, ◌^◌, ◌<◌, ◌≤◌, length, get_or};
ghost use Rattle.std.proofs.Math.Seq.{slice};
ghost use Rattle.machine.specs.Machine.{Table};
ghost use Rattle.text.specs.Frames as text;
ghost use Rattle.head_frames.specs.Staged.{AtRules, Stepped};
ghost use Rattle.rule_frames.specs.Kept.{rule_field, RuleRead};

use fields::{Cursor, Fault};
use head_frames::{Note, Phase, Stage};

// What is kept for the state and the symbol of rule number i.
fn pack(i: usize, letters: usize, packed: u64) -> u64
    requires { (i < 512) × (letters ≤ 160) × (packed < 5 * 2 ^ 61) }
    ensures { result ≡ letters + 256 + 512 * i + packed }
{
    (letters as u64) + 256 + 512 * (i as u64) + packed
}

// What is kept for rule number i, whose fields behind its symbol come next: the word u0, then for
// each of `count` children its state and a word.
fn rule_fields(cursor: &mut Cursor, i: usize, states: usize, count: usize) -> Result<u64, Fault>
    requires { (i < 512) × (states ≤ 64) × (count ≤ 4) }
    ensures read { RuleRead cursor.old.frames.now i cursor.old.at cursor.old.end cursor.new.at
        (rule_field states count (slice cursor.old.at cursor.old.end cursor.old.frames.now)) result }
    ensures frames { cursor.new.frames ≡ cursor.old.frames }
    ensures end { cursor.new.end ≡ cursor.old.end }
{
    let first = cursor.word()?;
    let rest = cursor.children(states, count)?;
    Ok(pack(i, first + rest.letters, rest.packed))
}

// What is kept of a rule by its number: where its bytes stand, its symbol, its state.
fn row_number(at: usize, symbol: usize, state: usize) -> u64
    requires { (at ≤ 16384) × (symbol < 64) × (state < 64) }
    ensures { result ≡ at + 2 ^ 17 * symbol + 2 ^ 23 * state }
{
    (at as u64) + 131072 * (symbol as u64) + 8388608 * (state as u64)
}

// Frame 03: state, symbol, and the rule's fields. The rule's note goes behind those before it.
pub fn rule_frame(
    st: Stage,
    mut cursor: Cursor,
    rules: &mut [Note; layout::RULES],
) -> Result<Stage, Fault>
    requires at_value { (cursor.at ≡ st.used + 1) × (cursor.end ≤ 16384) }
    requires states_bound { (st.head.states ≤ 64) × (st.head.symbols ≤ 64) }
    ensures { (M : Table) → AtRules cursor.entry.frames.now rules.old st M → get_or cursor.entry.frames.now st.used 0 ≡ 3
        → Stepped cursor.entry.frames.now rules.new
        (text.whole (text.rule_frame M (slice cursor.entry.at cursor.entry.end cursor.entry.frames.now))) result }
{
    let mut head = st.head;
    if layout::RULES <= head.rules {
        return Err(Fault::OutOfRange);
    }
    let state = cursor.below(head.states)?;
    let symbol = cursor.below(head.symbols)?;
    let from = cursor.at;
    let key = state * layout::SYMBOLS + symbol;
    if key < st.last {
        return Err(Fault::OutOfOrder);
    }
    let arity = usize::from(layout::byte(cursor.frames, 2 * symbol + 1));
    // Never so at a symbol that was read.
    if layout::ARITY < arity {
        return Err(Fault::OutOfRange);
    }
    let entry = rule_fields(&mut cursor, head.rules, head.states, arity)?;
    cursor.finish()?;
    rules[head.rules] = Note {
        row: row_number(from, symbol, state),
        entry,
    };
    head.rules += 1;
    Ok(Stage {
        phase: Phase::Rules,
        head,
        last: key + 1,
        used: cursor.end,
    })
}
