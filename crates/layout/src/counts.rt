// The head of an opened table: its counts, its initial rule, its symbols' arities.
ghost use Rattle.std.specs.Prelude.{◌≡◌, List, ℕ, ◌<◌, ◌≤◌, length, get_or};
ghost use Rattle.text.specs.Limits.{symbols_most, states_most, rows_most};
ghost use Rattle.machine.specs.Machine.{Table};
ghost use Rattle.layout.specs.Layout.{Opened, MeantBy};
ghost use Rattle.layout.specs.Lent.{Means};

use crate::{OpenTable, RULES, STATES, SYMBOLS, byte, number, stretch};

// A count, at most `most`: an opened table has no more.
fn at_most(x: u64, most: usize) -> usize
    requires { most ≤ 65536 }
    ensures { (result ≤ most) × (x ≤ most → result ≡ x) }
{
    if x < most as u64 { x as usize } else { most }
}

// A number of the head as a place in the bytes.
fn place(numbers: &[u64], at: usize) -> usize
    ensures { result ≡ get_or numbers.now at 0 }
{
    number(numbers, at) as usize
}

// The number of symbols.
pub fn symbols(numbers: &[u64]) -> usize
    ensures upper_bound { result ≤ symbols_most }
    ensures meant_by { MeantBy numbers.now (λ M. result ≡ length M.arities) }
{
    at_most(number(numbers, 0), SYMBOLS)
}

// The number of states.
pub fn states(numbers: &[u64]) -> usize
    ensures upper_bound { result ≤ states_most }
    ensures meant_by { MeantBy numbers.now (λ M. result ≡ M.states) }
{
    at_most(number(numbers, 1), STATES)
}

// The initial state.
pub fn start(numbers: &[u64]) -> usize
    ensures upper_bound { result < states_most }
    ensures meant_by { MeantBy numbers.now (λ M. result ≡ M.start) }
{
    (number(numbers, 2) % 64) as usize
}

// The number of rules.
pub fn rules(numbers: &[u64]) -> usize
    ensures upper_bound { result ≤ rows_most }
    ensures meant_by { MeantBy numbers.now (λ M. result ≡ length M.rows) }
{
    at_most(number(numbers, 3), RULES)
}

// The word before the initial state.
pub fn word_before<'f>(table: &OpenTable<'f, '_>) -> &'f [u8]
    ensures result_len_bound { length result.now < 256 }
    ensures meant { Means table.now (λ M. result.now ≡ M.before) }
{
    stretch(table.frames, place(table.numbers, 4))
}

// The word after it.
pub fn word_after<'f>(table: &OpenTable<'f, '_>) -> &'f [u8]
    ensures result_len_bound { length result.now < 256 }
    ensures meant { Means table.now (λ M. result.now ≡ M.after) }
{
    stretch(table.frames, place(table.numbers, 5))
}

// The arity of symbol f.
pub fn arity(frames: &[u8], f: usize) -> usize
    requires { f < 256 }
    ensures upper_bound { result < 256 }
    ensures by_index { (I : List ℕ) (M : Table) → Opened frames.now I M → f < length M.arities → result ≡ get_or M.arities f 0 }
{
    usize::from(byte(frames, 2 * f + 1))
}
