// The rules of an opened table by their numbers, and what is kept of a rule for its state and symbol.
// Each takes any lent numbers and tests once how many they are; those that end in `full` read with no test.
// Each contract speaks of every table that the numbers mean.
#![tactic(auto)]

ghost use Rattle.layout.specs.Layout.{MeantBy};
ghost use Rattle.rule_leaves.specs.Lookup.{Sought};

pub use full::kept_for_full;
pub use kept::{child_in, first_in, kept_for, kids_in, later_in, letters_in, number_in};
pub use kids::kids_alike;
pub use rule::{Laid, Rules, kept_of, laid_at, rules_of, spot_of, state_of, symbol_of};

mod full;
mod kept;
mod kids;
mod rule;

// Where the numbers of an opened table have the first rule of each state, what is kept of each rule
// by its number, and the grid of what is kept for each state and symbol.
const FIRSTS: usize = 8;

const LISTING: usize = 80;

const GRID: usize = 592;

// What is kept of a rule by its number: its first word's spot, and from this bit on its symbol and its state.
const SPOTS: u64 = 16384;

const KEY_BIT: u32 = 17;

const KEYS: u64 = 4096;

// The number of the rule of state q and symbol f, if there is one.
pub fn rule_number(numbers: &[u64], q: usize, f: usize) -> Option<usize>
    ensures { MeantBy numbers.now (λ M. Sought M q f result) }
{
    let x = kept_for(numbers, q, f);
    if x == 0 {
        return None;
    }
    Some(number_in(x))
}
