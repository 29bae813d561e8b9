// The states of an opened table numbered by first visit: the number of a state is that of its class.
#![tactic(auto)]

ghost use Rattle.std.specs.Prelude.{◌≡◌, ℕ, ◌-◌, ◌<◌, ◌≤◌, length, get_or};
ghost use Rattle.text.specs.Limits.{states_most};
ghost use Rattle.form_numbers.specs.Numbers.{StatesNumbered};

use layout::{STATES, byte};
use visit::visit;

// A number of states: at most as many as a table may have.
pub fn most(n: usize) -> usize
    ensures { (result ≤ states_most) × (n ≤ states_most → result ≡ n) }
{
    n.min(STATES)
}

// Puts down the number of each state by the mark of its class: one less, 0 where there is none.
fn fill(rep: &[u8], known: &[u8; 256], names: &mut [u8])
    requires { states_most ≤ length names.old }
    ensures { (q : ℕ) → q < states_most
        → get_or names.new q 0 ≡ get_or known.now (get_or rep.now q 0) 0 - 1 }
{
    for q in 0..STATES {
        names[q] = known[usize::from(byte(rep, q))].saturating_sub(1);
    }
}

// Numbers the states by first visit, where `rep` has their classes: the first entries of `order` are the states that have
// a number, in order; `names` has the number of each state. The answer is how many numbers there are.
pub fn number(numbers: &[u64], rep: &[u8], order: &mut [u8], names: &mut [u8]) -> usize
    requires { (states_most ≤ length order.old) × (states_most ≤ length names.old) }
    ensures upper_bound { result ≤ states_most }
    ensures states_numbered { StatesNumbered numbers.now rep.now order.new names.new result }
{
    let queue = visit(numbers, rep);
    order[..STATES].copy_from_slice(&queue.order);
    fill(rep, &queue.known, names);
    queue.count
}
