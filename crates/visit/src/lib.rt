// The walk over the states of an opened table in the order of first visit: each class of states that is met for the first time gets the next free number.
// The form walks by classes of states with the same words, the judgement with each state as a class of its own.
#![tactic(auto)]

ghost use Rattle.std.specs.Prelude.{take};
ghost use Rattle.text.specs.Limits.{states_most};
ghost use Rattle.layout.specs.Layout.{MeantBy};
ghost use Rattle.visit.specs.Visiting.{Visits};
ghost use Rattle.visit.specs.Reaches.{Own, Reaches};

use layout::{STATES, start};
use visit_queue::Queue;

// Visits the states from the initial one on, in order of their numbers, where `rep` tells their classes.
pub fn visit(numbers: &[u64], rep: &[u8]) -> Queue
    ensures { Visits numbers.now rep.now result }
{
    let mut queue = Queue::new();
    queue.meet(rep, start(numbers));
    let mut i = 0;
    // The queue grows while it is walked, so no range or iterator has its end.
    while i < queue.count {
        let q = usize::from(queue.order[i]);
        queue.meet_rules(numbers, rep, q);
        i += 1;
    }
    queue
}

// Each state as a class of its own.
fn own() -> [u8; STATES]
    ensures { Own result states_most }
{
    let mut rep = [0u8; STATES];
    for (q, class) in rep.iter_mut().enumerate() {
        *class = q as u8;
    }
    rep
}

// Visits the states that are reached from the initial one: lists them, and marks them with entries that are not 0.
pub fn reach(numbers: &[u64]) -> Queue
    ensures { MeantBy numbers.now (λ M. Reaches M (take states_most result.known) result.order result.count) }
{
    visit(numbers, &own())
}
