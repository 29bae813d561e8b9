// Measuring a tree: its shape and letters in one loop over its bytes, which leaves the plan for the
// writing pass; or that the bytes are no tree with a word.
#![tactic(auto)]

ghost use Rattle.std.specs.Prelude.{List, ℕ, IfSome, ◌≤◌};
ghost use Rattle.words.specs.Told.{Told};
ghost use Rattle.machine.specs.Machine.{Table};
ghost use Rattle.layout.specs.Layout.{Opened};
ghost use Rattle.layout.specs.Leaves.{Tells};
ghost use Rattle.walk.specs.Plan.{Names};
ghost use Rattle.measure.specs.Measures.{MeasureOf, Measurable};

use waiting::Stack;

// What stands below all that waits: no number that may meet a symbol, so that bytes behind the tree's end are refused.
const NOTHING: u16 = u16::MAX;

// More than any sum of letters: they are fewer than 256 for each of 32,768 symbols.
const SUMS: usize = 268435456;

// The plan's number of the rule that x tells: the spot of its first word, and how many children it has.
fn plan_of(numbers: &[u64], x: u64) -> u32
    ensures { (F : List ℕ) (M : Table) (q f : ℕ) → Opened F numbers.now M → (t : Tells M q f x) → Names F result t.rule }
{
    let spot = rule_leaves::spot_of(numbers, rule_leaves::number_in(x));
    (spot + rule_leaves::kids_in(x) * walk::PLAN_UNIT) as u32
}

// Whether the loop can go through tree bytes, with a place of the plan for each.
fn ready(tree: &[u8], plan: &[u32]) -> bool
    ensures { Told (Measurable tree.now plan.now) result }
{
    0 < tree.len() && tree.len() <= layout::TREE && tree.len() <= plan.len()
}

// The letters of the tree that tree bytes are, from the initial state on, and the plan of its writing;
// none where they are no tree with a word. The letters are few whatever the lent numbers are.
pub fn measure(
    numbers: &[u64; layout::NUMBERS],
    tree: &[u8],
    plan: &mut [u32; layout::TREE],
) -> Option<usize>
    ensures by_index { (F : List ℕ) (M : Table) → Opened F numbers.now M → MeasureOf F tree.now plan.new M M.start result }
    ensures few { IfSome result (λ letters. letters ≤ 8388608) }
{
    if !ready(tree, plan) {
        return None;
    }
    let mut places = [0u16; waiting::PLACES];
    let mut stack = Stack::new(&mut places, NOTHING);
    let mut next = layout::start(numbers);
    let mut sum: usize = 0;
    for (at, &byte) in tree.iter().enumerate() {
        let f = usize::from(byte);
        if !stack.usual(f, next) {
            return None;
        }
        let x = rule_leaves::kept_for_full(numbers, next % layout::STATES, f);
        if x == 0 {
            return None;
        }
        plan[at] = plan_of(numbers, x);
        sum += rule_leaves::letters_in(x);
        next = stack.turn(next, x);
    }
    if !stack.is_empty() {
        return None;
    }
    // The rest of the division is the sum; with it the compiler keeps nothing but the sum in the loop.
    Some(sum % SUMS)
}
