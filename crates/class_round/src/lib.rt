// One round of parting the states of an opened table into classes: states of a class stay together if their rows match up to the classes.
// The first round compares words. States that it leaves together have the same, so later rounds compare children alone.
// Nothing is asked of the lent bytes and numbers: each contract speaks of every table that they mean.
#![tactic(auto)]

ghost use Rattle.std.specs.Prelude.{◌≡◌, true, ℕ, ◌<◌, ◌≤◌, length};
ghost use Rattle.words.specs.Told.{Told};
ghost use Rattle.machine.specs.Machine.{Table};
ghost use Rattle.text.specs.Limits.{states_most, rows_most};
ghost use Rattle.layout.specs.Layout.{Opened};
ghost use Rattle.layout.specs.Lent.{Means};
ghost use Rattle.layout.specs.Leaves.{RulesOf};
ghost use Rattle.class_round.specs.Round.{OneClass, RoundBegun, Leads, Picked, Low, NumbersRaised, Rounded};

use layout::{OpenTable, STATES};
use rule_leaves::Rules;

// Whether r stands for its class in the new round, and the round leaves q, whose rules are `mine`, with it.
// The first round compares words alone, since all states are in one class; later ones compare children alone.
fn leads(
    first: bool,
    table: &OpenTable<'_, '_>,
    rep: &[u8; STATES],
    next: &[u8; STATES],
    q: usize,
    mine: Rules,
    r: usize,
) -> bool
    requires { (q < states_most) × (r < states_most) × (mine.from ≤ rows_most) × (mine.to ≤ rows_most) }
    ensures one_class { result ≡ true → OneClass rep.now q r }
    ensures told { (M : Table) (n : ℕ) → Opened table.now.frames.now table.now.numbers.now M → RulesOf M q mine.from mine.to
        → n ≡ M.states → q < n → r < n → RoundBegun first M n rep.now
        → Told (Leads M rep.now next.now q r) result }
{
    if usize::from(next[r]) != r {
        return false;
    }
    if rep[q] != rep[r] {
        return false;
    }
    // A closure in place of `first` would carry both contracts through three functions, which is no plainer.
    if first {
        return same_rules::same_shapes(table, q, mine, table, r);
    }
    same_rules::same_children(table.numbers, rep, q, mine, table.numbers, rep, r)
}

// The state that stands for the class of q in the new round: the first before q that leads it, or q itself.
// The number of its old class is the first state of that class, so none before that leads it.
fn pick(
    first: bool,
    table: &OpenTable<'_, '_>,
    rep: &[u8; STATES],
    next: &[u8; STATES],
    q: usize,
) -> usize
    requires { (q < states_most) × Low rep.now }
    ensures upper_bound { (result ≤ q) × OneClass rep.now q result }
    ensures picked { (M : Table) (n : ℕ) → Opened table.now.frames.now table.now.numbers.now M → n ≡ M.states → q < n
        → RoundBegun first M n rep.now → Picked M rep.now next.now q result }
{
    let oldest = usize::from(rep[q]);
    if oldest == q {
        return q;
    }
    let mine = rule_leaves::rules_of(table.numbers, q);
    for r in oldest..q {
        if leads(first, table, rep, next, q, mine, r) {
            return r;
        }
    }
    q
}

// One round over the first n states.
pub fn round(
    first: bool,
    table: &OpenTable<'_, '_>,
    n: usize,
    rep: &[u8; STATES],
    next: &mut [u8; STATES],
)
    requires { (n ≤ states_most) × Low rep.now }
    ensures numbers_raised { NumbersRaised n rep.now next.new }
    ensures meant { Means table.now (λ M. n ≡ M.states
        → RoundBegun first M n rep.now → Rounded M n rep.now next.new) }
{
    for q in 0..n {
        let r = pick(first, table, rep, next, q);
        next[q] = r as u8;
    }
}
