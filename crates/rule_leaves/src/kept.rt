// What an opened table keeps for a state and a symbol: one number that tells the rule, 0 if there is none.
ghost use Rattle.std.specs.Prelude.{◌≡◌, ℕ, suc, ◌+◌, ◌<◌, length};
ghost use Rattle.text.specs.Limits.{states_most, rows_most};
ghost use Rattle.machine.specs.Machine.{Rule};
ghost use Rattle.layout.specs.Layout.{rule_letters, MeantBy};
ghost use Rattle.layout.specs.Leaves.{Encodes, Kept, state_no};

use crate::full::kept_for_full;
use layout::{NUMBERS, SYMBOLS, states};

// From which bit on a kept number has the state of the first child, of the last, of the second and
// the third from the end, and how many children there are.
pub const FIRST_BIT: u32 = 21;

pub const LAST_BIT: u32 = 31;

pub const SECOND_BIT: u32 = 41;

pub const THIRD_BIT: u32 = 51;

pub const KIDS_BIT: u32 = 61;

// Below the children's states it has the rule's number, from this bit on, and lowest how many letters the rule writes.
const NUMBER_BIT: u32 = 9;

// How many values each of these may have: as many as a table may have states, or rules, and a byte.
pub const STATES_KEPT: u64 = 64;

const RULES_KEPT: u64 = 512;

const LETTERS_KEPT: u64 = 256;

// What is kept for any state and any symbol.
pub fn kept_for(numbers: &[u64], q: usize, f: usize) -> u64
    ensures { MeantBy numbers.now (λ M. Kept M q f result) }
{
    let Ok(numbers) = <&[u64; NUMBERS]>::try_from(numbers) else {
        return 0;
    };
    if states(numbers) <= q || SYMBOLS <= f {
        return 0;
    }
    kept_for_full(numbers, q, f)
}

// The rule's number.
pub fn number_in(x: u64) -> usize
    ensures upper_bound { result < rows_most }
    ensures by_index { (i : ℕ) (r : Rule) → Encodes x i r → result ≡ i }
{
    ((x >> NUMBER_BIT) % RULES_KEPT) as usize
}

// How many letters it writes itself.
pub fn letters_in(x: u64) -> usize
    ensures upper_bound { result < 256 }
    ensures by_index { (i : ℕ) (r : Rule) → Encodes x i r → result ≡ rule_letters r }
{
    (x % LETTERS_KEPT) as usize
}

// How many children it has.
pub fn kids_in(x: u64) -> usize
    ensures upper_bound { result < 8 }
    ensures by_index { (i : ℕ) (r : Rule) → Encodes x i r → result ≡ length r.rest }
{
    (x >> KIDS_BIT) as usize
}

// The state of its first child, 0 if it has none.
pub fn first_in(x: u64) -> usize
    ensures upper_bound { result < states_most }
    ensures by_index { (i : ℕ) (r : Rule) → Encodes x i r → result ≡ state_no r.rest 0 }
{
    ((x >> FIRST_BIT) % STATES_KEPT) as usize
}

// The state of the child with n others behind it, if that is not the first.
pub fn later_in(x: u64, n: usize) -> usize
    ensures upper_bound { result < states_most }
    ensures by_index { (i : ℕ) (r : Rule) (j : ℕ) → Encodes x i r → suc (suc j) + n ≡ length r.rest → result ≡ state_no r.rest (suc j) }
{
    match n {
        0 => ((x >> LAST_BIT) % STATES_KEPT) as usize,
        1 => ((x >> SECOND_BIT) % STATES_KEPT) as usize,
        _ => ((x >> THIRD_BIT) % STATES_KEPT) as usize,
    }
}

// The state of child j.
pub fn child_in(x: u64, j: usize) -> usize
    ensures upper_bound { result < states_most }
    ensures by_index { (i : ℕ) (r : Rule) → Encodes x i r → j < length r.rest → result ≡ state_no r.rest j }
{
    if j == 0 {
        return first_in(x);
    }
    let kids = kids_in(x);
    if kids <= j {
        return 0;
    }
    later_in(x, kids - 1 - j)
}
