// Rules are added to the summaries of their states, until none adds anything.
ghost use Rattle.std.specs.Prelude.{◌≡◌, ◌<◌};
ghost use Rattle.machine.specs.Machine.{Row, Table};
ghost use Rattle.text.specs.Limits.{states_most, rows_most};
ghost use Rattle.end_laws.specs.Companion.{visit};
ghost use Rattle.layout.specs.Layout.{Opened};
ghost use Rattle.layout.specs.Leaves.{RowAt};
ghost use Rattle.summary.specs.Codes.{side_of, summaries};
ghost use Rattle.summary.specs.Grown.{Grown};
ghost use Rattle.end_summaries.specs.Steps.{Adds, OneState, RulesOfListed};

use layout::{OpenTable, STATES, byte};
use rule_leaves::rules_of;
use rule_summary::rule_value;
use summary::{Letters, Side, Summary};

// Joins the summary of rule number i, which is one of state q, into that of q, and says how much that added.
fn add_rule(
    table: &OpenTable<'_, '_>,
    i: usize,
    q: usize,
    side: Side,
    values: &mut [Summary; STATES],
) -> usize
    requires { (i < rows_most) × (q < states_most) }
    ensures grown { Grown values.old values.new result }
    ensures values_after { (M : Table) (row : Row) → Opened table.now.frames.now table.now.numbers.now M → RowAt M i row → row.state ≡ q
        → summaries values.new ≡ visit (side_of side) row (summaries values.old) }
{
    let old = values[q];
    let new = old.joined(rule_value(table, i, side, values));
    if new == old {
        return 0;
    }
    values[q] = new;
    new.rank() - old.rank()
}

// Adds the rules of state q, until it has several letters: where the empty word is told already, nothing more can be added.
// They are taken from the last on, since symbols without children mostly stand last, and their words are known at once.
fn add_state(
    table: &OpenTable<'_, '_>,
    q: usize,
    side: Side,
    values: &mut [Summary; STATES],
) -> usize
    ensures grown { Grown values.old values.new result }
    ensures adds { Adds table.now.frames.now table.now.numbers.now (side_of side) (OneState q) values.old values.new result }
{
    if STATES <= q {
        return 0;
    }
    let rules = rules_of(table.numbers, q);
    let mut k = 0;
    for i in (rules.from..rules.to).rev() {
        if values[q].letters() == Letters::Several {
            return k;
        }
        k += add_rule(table, i, q, side, values);
    }
    k
}

// Adds the rules of the first n states of the order, from the last state on.
// Nothing is asked of n, which may be more than order has, so it is no slice.
pub fn add_states(
    table: &OpenTable<'_, '_>,
    order: &[u8],
    n: usize,
    side: Side,
    values: &mut [Summary; STATES],
) -> usize
    ensures grown { Grown values.old values.new result }
    ensures adds { Adds table.now.frames.now table.now.numbers.now (side_of side) (RulesOfListed order.now 0 n)
        values.old values.new result }
{
    let mut k = 0;
    for i in (0..n).rev() {
        k += add_state(table, usize::from(byte(order, i)), side, values);
    }
    k
}
