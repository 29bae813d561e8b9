// The length of the form's text, by the states' first-visit numbers.
// Nothing is asked of the opened table: each promise speaks of every table that the lent bytes and numbers mean.
#![tactic(auto)]

ghost use Rattle.std.specs.Prelude.{◌≤◌};
ghost use Rattle.text.specs.Limits.{states_most};
ghost use Rattle.form_length.specs.Long.{StatesLong, FormLong};

use form_numbers::most;
use layout::{OpenTable, byte, symbols, word_after, word_before};
use rule_leaves::rules_of;
use word_leaves::lines_length;

// The length of the lines of the first n states of `order`: as long as they are in the table's text.
fn states_length(numbers: &[u64], order: &[u8], n: usize) -> usize
    requires { n ≤ states_most }
    ensures upper_bound { result ≤ 3000000 }
    ensures states_long { StatesLong numbers.now order.now n result }
{
    let mut sum = 0;
    for i in 0..n {
        let own = rules_of(numbers, usize::from(byte(order, i)));
        sum += lines_length(numbers, own.from, own.to);
    }
    sum
}

// The length of the form's text, where the first n states of `order` are the states by first visit.
// Nothing is asked of n, which may be more than `order` has, so it is no slice of that length.
pub fn length(table: &OpenTable<'_, '_>, order: &[u8], n: usize) -> usize
    ensures { FormLong table.now.frames.now table.now.numbers.now order.now n result }
{
    let before = word_before(table);
    let after = word_after(table);
    let rules = states_length(table.numbers, order, most(n));
    5 * symbols(table.numbers) + 2 * before.len() + 2 * after.len() + rules + 14
}
