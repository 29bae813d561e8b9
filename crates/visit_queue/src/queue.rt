// The queue itself, with room for each state and each class that a table may have.
ghost use Rattle.std.specs.Prelude.{◌≤◌};
ghost use Rattle.text.specs.Limits.{states_most};

use layout::STATES;

// The states that were met, in turn: the first `count` entries of `order`.
// `known` has, for each class, one more than the number of its state, or 0 where none was met.
#[derive(Clone, Copy)]
pub struct Queue {
    pub order: [u8; STATES],
    pub known: [u8; 256],
    pub count: usize,
    ghost in_range: { count ≤ states_most },
}
