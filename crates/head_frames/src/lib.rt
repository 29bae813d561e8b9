// The stages of reading a table text, and the frames of its head: symbols and the initial rule.
#![tactic(auto)]

ghost use Rattle.std.specs.Prelude.{◌≡◌, List, [], ℕ, ◌+◌, ◌≤◌, length, get_or};
ghost use Rattle.std.proofs.Math.Seq.{slice};
ghost use Rattle.text.specs.Frames as text;
ghost use Rattle.head_frames.specs.Staged.{AtSymbols, Staged, Stepped};

use fields::{Cursor, Fault};

// What is noted of a rule while its table's text is read: its number as a row, and what is kept for
// its state and symbol.
#[derive(Clone, Copy)]
pub struct Note {
    pub row: u64,
    pub entry: u64,
}

// What is known of a table's head while its text is read: its counts, its initial state, where the
// initial words and the first rule's frame stand.
#[derive(Clone, Copy)]
pub struct Head {
    pub symbols: usize,
    pub states: usize,
    pub start: usize,
    pub before: usize,
    pub after: usize,
    pub rows: usize,
    pub rules: usize,
}

// What the reader is in: the symbols, the rules, or nothing more behind the end frame.
#[derive(Clone, Copy, PartialEq, Eq)]
pub enum Phase {
    Symbols,
    Rules,
    Ended,
}

// How far the reader is: the table's numbers so far; the least place in the order of rules for the
// next one; how many bytes are used.
#[derive(Clone, Copy)]
pub struct Stage {
    pub phase: Phase,
    pub head: Head,
    pub last: usize,
    pub used: usize,
}

// The stage at the beginning of a text: no symbol yet.
pub fn start() -> Stage
    ensures by_index { (F : List ℕ) (R : List Note) → Staged F R result (text.symbols []) }
    ensures used_value { result.used ≡ 0 }
{
    Stage {
        phase: Phase::Symbols,
        head: Head {
            symbols: 0,
            states: 0,
            start: 0,
            before: 0,
            after: 0,
            rows: 0,
            rules: 0,
        },
        last: 0,
        used: 0,
    }
}

// Frame 01: arity. The cursor stands behind the kind.
pub fn symbol_frame(st: Stage, mut cursor: Cursor) -> Result<Stage, Fault>
    requires { cursor.at ≡ st.used + 1 }
    ensures { (R : List Note) (arities : List ℕ) → AtSymbols cursor.entry.frames.now st arities → get_or cursor.entry.frames.now st.used 0 ≡ 1
        → Stepped cursor.entry.frames.now R
        (text.whole (text.symbol_frame arities (slice cursor.entry.at cursor.entry.end cursor.entry.frames.now))) result }
{
    let mut head = st.head;
    if layout::SYMBOLS <= head.symbols {
        return Err(Fault::OutOfRange);
    }
    cursor.within(0, layout::ARITY)?;
    cursor.finish()?;
    head.symbols += 1;
    Ok(Stage {
        phase: Phase::Symbols,
        head,
        last: 0,
        used: cursor.end,
    })
}

// Frame 02: number of states, word u0, state, word u1. No rule is read yet.
pub fn start_frame(st: Stage, mut cursor: Cursor) -> Result<Stage, Fault>
    requires { cursor.at ≡ st.used + 1 }
    ensures { (R : List Note) (arities : List ℕ) → AtSymbols cursor.entry.frames.now st arities → get_or cursor.entry.frames.now st.used 0 ≡ 2
        → Stepped cursor.entry.frames.now R
        (text.whole (text.start_frame arities (slice cursor.entry.at cursor.entry.end cursor.entry.frames.now))) result }
{
    let states = cursor.within(1, layout::STATES)?;
    let before = cursor.at;
    cursor.word()?;
    let start = cursor.below(states)?;
    let after = cursor.at;
    cursor.word()?;
    cursor.finish()?;
    let rows = cursor.end;
    Ok(Stage {
        phase: Phase::Rules,
        head: Head {
            symbols: st.head.symbols,
            states,
            start,
            before,
            after,
            rows,
            rules: 0,
        },
        last: 0,
        used: rows,
    })
}
