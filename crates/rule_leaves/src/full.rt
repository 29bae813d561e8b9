// Reading with no test: the numbers are as many as an opened table's.
ghost use Rattle.std.specs.Prelude.{◌≡◌, ◌<◌, ◌≤◌};
ghost use Rattle.text.specs.Limits.{symbols_most, states_most, rows_most};
ghost use Rattle.machine.specs.Machine.{Table};
ghost use Rattle.layout.specs.Layout.{rows_before, MeantBy};
ghost use Rattle.layout.specs.Leaves.{Encodes, Kept, RulesOf, RowMeant};

use crate::rule::Rules;
use crate::{FIRSTS, GRID, KEY_BIT, KEYS, LISTING};
use layout::{NUMBERS, RULES, STATES, SYMBOLS};

// What is kept for a state of the table and a symbol.
pub fn kept_for_full(numbers: &[u64; NUMBERS], q: usize, f: usize) -> u64
    requires { (q < states_most) × (f < symbols_most) }
    ensures { MeantBy numbers.now (λ M. q < M.states → Kept M q f result) }
{
    numbers[GRID + (q * SYMBOLS + f)]
}

// What is kept for the state and the symbol of rule number i.
pub fn kept_of_full(numbers: &[u64; NUMBERS], i: usize) -> u64
    requires { i < rows_most }
    ensures { RowMeant numbers.now i (λ r. Encodes result i r.rule) }
{
    let key = (numbers[LISTING + i] >> KEY_BIT) % KEYS;
    numbers[GRID + key as usize]
}

// The symbol of rule number i.
pub fn symbol_of_full(numbers: &[u64; NUMBERS], i: usize) -> usize
    requires { i < rows_most }
    ensures upper_bound { result < symbols_most }
    ensures row_meant { RowMeant numbers.now i (λ r. result ≡ r.symbol) }
{
    ((numbers[LISTING + i] >> KEY_BIT) % SYMBOLS as u64) as usize
}

// The number of the first rule of state q, at most 512.
fn first_of_full(numbers: &[u64; NUMBERS], q: usize) -> usize
    requires { q ≤ states_most }
    ensures upper_bound { result ≤ rows_most }
    ensures meant_by { MeantBy numbers.now (λ M. q ≤ M.states → result ≡ rows_before q M.rows) }
{
    let n = numbers[FIRSTS + q];
    if n < RULES as u64 { n as usize } else { RULES }
}

// The rules of state q: none if it is not one of the table.
pub fn rules_of_full(numbers: &[u64; NUMBERS], q: usize) -> Rules
    ensures to_le_rows_most { (result.to ≤ rows_most) × (result.from ≤ rows_most) }
    ensures meant_by { MeantBy numbers.now (λ M. RulesOf M q result.from result.to) }
{
    if STATES <= q || numbers[1] <= q as u64 {
        return Rules { from: 0, to: 0 };
    }
    Rules {
        from: first_of_full(numbers, q),
        to: first_of_full(numbers, q + 1),
    }
}
