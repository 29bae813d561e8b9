// The rules of an opened table by their numbers.
ghost use Rattle.std.specs.Prelude.{◌≡◌, List, ℕ, ◌<◌, ◌≤◌, ◌+◌, length, take};
ghost use Rattle.text.specs.Limits.{symbols_most, states_most, rows_most};
ghost use Rattle.machine.specs.Machine.{Row, Table};
ghost use Rattle.layout.specs.Layout.{Opened, head_frames, row_frames, rows_before, MeantBy};
ghost use Rattle.layout.specs.Leaves.{RowAt, Encodes, RulesOf, Spot, RowMeant};
ghost use Rattle.rule_leaves.specs.Lookup.{LaidOut};

use crate::full::{kept_of_full, rules_of_full, symbol_of_full};
use crate::kept::{STATES_KEPT, kids_in};
use crate::{LISTING, SPOTS};
use layout::{NUMBERS, number};

// From this bit on what is kept of a rule by its number has its state.
const STATE_BIT: u32 = 23;

// The numbers of a state's rules: from the first to the one behind the last. The library's Range is no Copy, and these are handed on.
#[derive(Clone, Copy)]
pub struct Rules {
    pub from: usize,
    pub to: usize,
}

// Where a rule's first word stands, and how many children the rule has.
#[derive(Clone, Copy)]
pub struct Laid {
    pub spot: usize,
    pub kids: usize,
}

// What is kept for the state and the symbol of rule number i.
pub fn kept_of(numbers: &[u64], i: usize) -> u64
    requires { i < rows_most }
    ensures { RowMeant numbers.now i (λ r. Encodes result i r.rule) }
{
    let Ok(numbers) = <&[u64; NUMBERS]>::try_from(numbers) else {
        return 0;
    };
    kept_of_full(numbers, i)
}

// The state of rule number i.
pub fn state_of(numbers: &[u64], i: usize) -> usize
    requires { i < rows_most }
    ensures upper_bound { result < states_most }
    ensures row_meant { RowMeant numbers.now i (λ r. result ≡ r.state) }
{
    ((number(numbers, LISTING + i) >> STATE_BIT) % STATES_KEPT) as usize
}

// The symbol of rule number i.
pub fn symbol_of(numbers: &[u64], i: usize) -> usize
    requires { i < rows_most }
    ensures upper_bound { result < symbols_most }
    ensures row_meant { RowMeant numbers.now i (λ r. result ≡ r.symbol) }
{
    let Ok(numbers) = <&[u64; NUMBERS]>::try_from(numbers) else {
        return 0;
    };
    symbol_of_full(numbers, i)
}

// The spot of the first word of rule number i: behind the head, the frames before the rule's own, and three bytes of its own.
pub fn spot_of(numbers: &[u64], i: usize) -> usize
    requires { i < rows_most }
    ensures upper_bound { result < 16384 }
    ensures by_index { (F : List ℕ) (M : Table) (r : Row) → Opened F numbers.now M → RowAt M i r → Spot F r.rule.first r.rule.rest result }
    ensures place { (F : List ℕ) (M : Table) (r : Row) → Opened F numbers.now M → RowAt M i r
        → result ≡ length (head_frames M) + length (row_frames (take i M.rows)) + 3 }
{
    (number(numbers, LISTING + i) % SPOTS) as usize
}

// The spot of the first word of rule number i, and how many children it has.
pub fn laid_at(numbers: &[u64], i: usize) -> Laid
    requires { i < rows_most }
    ensures { (F : List ℕ) (M : Table) (r : Row) → Opened F numbers.now M → RowAt M i r → LaidOut F r.rule result }
{
    Laid {
        spot: spot_of(numbers, i),
        kids: kids_in(kept_of(numbers, i)),
    }
}

// The rules of state q: none if it is not one of the table.
pub fn rules_of(numbers: &[u64], q: usize) -> Rules
    ensures to_le_rows_most { (result.to ≤ rows_most) × (result.from ≤ rows_most) }
    ensures meant_by { MeantBy numbers.now (λ M. RulesOf M q result.from result.to) }
{
    let Ok(numbers) = <&[u64; NUMBERS]>::try_from(numbers) else {
        return Rules { from: 0, to: 0 };
    };
    rules_of_full(numbers, q)
}
