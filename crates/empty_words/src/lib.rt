// Which states of an opened table have the empty word: those with a rule that writes no letter itself and whose children all have it.
// Nothing is asked of the lent numbers: each contract speaks of every table that they mean.
#![tactic(auto)]

ghost use Rattle.std.specs.Prelude.{◌≡◌, ℕ, ◌<◌, get_or};
ghost use Rattle.words.specs.Told.{Told};
ghost use Rattle.machine.specs.Machine.{Rule};
ghost use Rattle.layout.specs.Layout.{MeantBy};
ghost use Rattle.layout.specs.Leaves.{Encodes};
ghost use Rattle.summary.specs.Codes.{K, untold};
ghost use Rattle.summary.specs.Grown.{Grown};
ghost use Rattle.empty_words.specs.Blank.{Blanks, EmptyTold, AllBlank, BlankRule, BlankOf, Marks, ListedBetween, AllListed};

use layout::{NUMBERS, STATES, byte};
use rule_leaves::{child_in, kept_of, kids_in, letters_in, rules_of};
use summary::{EMPTY, Summary, UNTOLD};

// Whether something is kept for each child of the rule that x tells.
fn all_blank(x: u64, values: &[Summary; STATES]) -> bool
    ensures { (i : ℕ) (r : Rule) → Encodes x i r → Told (AllBlank values.now r.rest) result }
{
    for j in 0..kids_in(x) {
        if values[child_in(x, j)] == UNTOLD {
            return false;
        }
    }
    true
}

// Whether the rule that x tells writes no letter itself, and something is kept for each of its children.
fn blank_rule(x: u64, values: &[Summary; STATES]) -> bool
    ensures { (i : ℕ) (r : Rule) → Encodes x i r → Told (BlankRule values.now r) result }
{
    letters_in(x) == 0 && all_blank(x, values)
}

// Whether state q has such a rule.
fn has_blank(numbers: &[u64], q: usize, values: &[Summary; STATES]) -> bool
    ensures { MeantBy numbers.now (λ M. Told (BlankOf M values.now q) result) }
{
    let rules = rules_of(numbers, q);
    for i in rules.from..rules.to {
        if blank_rule(kept_of(numbers, i), values) {
            return true;
        }
    }
    false
}

// Keeps `EMPTY` for state q if nothing is kept for it yet and it has such a rule, and says how many states that makes: 1 or 0.
fn blank_state(numbers: &[u64], q: usize, values: &mut [Summary; STATES]) -> usize
    ensures grown { Grown values.old values.new result }
    ensures marks { Marks numbers.now (λ p. p ≡ q) values.old values.new result }
{
    if STATES <= q || values[q] != UNTOLD {
        return 0;
    }
    if has_blank(numbers, q, values) {
        values[q] = EMPTY;
        return 1;
    }
    0
}

// Does that for the first n states of the order, from the last state on, and says for how many it is new.
// Nothing is asked of n, which may be more than order has, so it is no slice.
fn blank_states(numbers: &[u64], order: &[u8], n: usize, values: &mut [Summary; STATES]) -> usize
    ensures grown { Grown values.old values.new result }
    ensures marks { Marks numbers.now (ListedBetween order.now 0 n) values.old values.new result }
{
    let mut k = 0;
    for i in (0..n).rev() {
        k += blank_state(numbers, usize::from(byte(order, i)), values);
    }
    k
}

// Finds the states that have the empty word, and keeps `EMPTY` for each: rules without letters are tried, state by state, until none finds a state more.
// Nothing is asked of n, which may be more than order has, so it is no slice.
pub fn blanks(numbers: &[u64], order: &[u8], n: usize, values: &mut [Summary; STATES])
    requires { (q : ℕ) → get_or values.old q untold ≡ untold }
    ensures meant_by { MeantBy numbers.now (λ M. Blanks M values.new) }
    ensures meant_by_2 { MeantBy numbers.now (λ M. AllListed M order.now n → EmptyTold M (K values.new)) }
{
    // Reading asks how many numbers there are: it is told once here, so that no read below asks again.
    let Ok(numbers) = <&[u64; NUMBERS]>::try_from(numbers) else {
        return;
    };
    // How many passes there are shows only when one finds nothing, so no range has their end.
    loop {
        let k = blank_states(numbers, order, n, values);
        if k == 0 {
            break;
        }
    }
}
