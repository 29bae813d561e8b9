// The queue of the walk over the states of an opened table: a state that is met goes behind the list, unless one of its class is there.
// The states of a rule's children are met from left to right, those of a state's rules rule by rule.
#![tactic(auto)]

ghost use Rattle.std.specs.Prelude.{[], ◌∷◌, ℕ, ◌<◌};
ghost use Rattle.machine.specs.Machine.{Rule};
ghost use Rattle.text.specs.Limits.{states_most};
ghost use Rattle.layout.specs.Layout.{MeantBy};
ghost use Rattle.layout.specs.Leaves.{Encodes};
ghost use Rattle.form_laws.specs.Listed.{kids};
ghost use Rattle.visit_queue.specs.Queue.{NoneMet, StatesMet, states_of};

use layout::{STATES, byte};
pub use queue::Queue;
use rule_leaves::{child_in, kept_of, kids_in, rules_of};

mod queue;

impl Queue {
    // No state was met.
    pub fn new() -> Queue
        ensures { NoneMet result }
    {
        Queue {
            order: [0; STATES],
            known: [0; 256],
            count: 0,
        }
    }

    // Meets state q: if its class, which `rep` tells, is not known, the class gets the next free number, and q goes behind the list.
    pub fn meet(&mut self, rep: &[u8], q: usize)
        requires { q < states_most }
        ensures { StatesMet rep.now (q ∷ []) self.old self.new }
    {
        let class = usize::from(byte(rep, q));
        if self.known[class] != 0 {
            return;
        }
        if STATES <= self.count {
            return;
        }
        self.order[self.count] = q as u8;
        self.known[class] = (self.count + 1) as u8;
        self.count += 1;
    }

    // Meets the states of a rule's children, from left to right; x is what is kept for the rule.
    fn meet_children(&mut self, rep: &[u8], x: u64)
        ensures { (i : ℕ) (r : Rule) → Encodes x i r → StatesMet rep.now (states_of r.rest) self.old self.new }
    {
        let kids = kids_in(x);
        for j in 0..kids {
            self.meet(rep, child_in(x, j));
        }
    }

    // Meets the child states of state q, rule by rule.
    pub fn meet_rules(&mut self, numbers: &[u64], rep: &[u8], q: usize)
        ensures { MeantBy numbers.now (λ M. StatesMet rep.now (kids M q) self.old self.new) }
    {
        let rules = rules_of(numbers, q);
        for i in rules.from..rules.to {
            self.meet_children(rep, kept_of(numbers, i));
        }
    }
}
