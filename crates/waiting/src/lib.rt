// The numbers that wait while a tree is measured: a state, with a unit for each symbol above it.
#![tactic(auto)]

ghost use Rattle.std.specs.Prelude.{◌≡◌, suc, ◌+◌, ◌-◌, ◌*◌, ◌/◌, ◌<◌, ◌≤◌, length, set};
ghost use Rattle.words.specs.Told.{Told};
ghost use Rattle.text.specs.Limits.{states_most};
ghost use Rattle.trees.specs.Shape.{depth_most};
ghost use Rattle.waiting.specs.Waiting.{ChildrenPushed, NextIs, ToldBy, TurnMade, Usual};

// The stack's places, and how many may be taken before a turn: more than three for each of 63 symbols above. A turn takes up to
// seven more, whatever is kept for its rule.
pub const PLACES: usize = 208;

const TAKEN_MOST: usize = 200;

// What waits below the number that comes next, at the places before `top`. The places are lent: of a stack that owned
// them the compiler kept `top` in memory, which took a tree's word 1.4 per cent more instructions.
#[derive(Drop)]
pub struct Stack<'a> {
    places: &'a mut [u16; PLACES],
    top: usize,
}

// The level of a waiting number's children: a unit for each symbol above them.
fn level_below(next: usize) -> usize
    requires { next < states_most * depth_most }
    ensures { (result ≡ states_most * suc (next / states_most)) × (result ≤ states_most * depth_most) }
{
    next - next % layout::STATES + layout::STATES
}

// The waiting number of a child behind the first: its state, with a unit for each symbol above it.
fn child(level: usize, state: usize) -> u16
    requires { (level ≤ states_most * depth_most) × (state < states_most) }
    ensures { result ≡ level + state }
{
    (level + state) as u16
}

// The number that comes next: what waits below if a rule has no children, else the first child's.
fn next_of(kids: usize, below: u16, first: usize) -> usize
    ensures { NextIs kids below first result }
{
    if kids == 0 { usize::from(below) } else { first }
}

impl<'a> Stack<'a> {
    // A stack with one place taken, on which this number waits.
    pub fn new(places: &'a mut [u16; PLACES], number: u16) -> Stack<'a>
        ensures same_places { result.places.ghost_name ≡ places.entry.ghost_name }
        ensures begun { (result.top ≡ 1) × (length result.places.now ≡ 208) × (result.places.now ≡ set places.old 0 number) }
    {
        places[0] = number;
        Stack { places, top: 1 }
    }

    // Whether no place is taken.
    pub fn is_empty(&self) -> bool
        ensures { Told (self.now.top ≡ 0) result }
    {
        self.top == 0
    }

    // Whether a number that comes next may meet a symbol: both are some that tables have, and the stack has room.
    pub fn usual(&self, f: usize, next: usize) -> bool
        ensures { Told (Usual f next self.now.top) result }
    {
        f < layout::SYMBOLS
            && next < layout::STATES * layout::LEVELS
            && 0 < self.top
            && self.top <= TAKEN_MOST
    }

    // Puts the numbers of a rule's last three children, where they are behind the first, on the stack.
    fn push(&mut self, level: usize, x: u64)
        requires { (level ≤ states_most * depth_most) × (self.old.top + 3 ≤ 208) }
        ensures same_places { self.new.places.ghost_name ≡ self.old.places.ghost_name }
        ensures pushed { ChildrenPushed x level self.old.top self.old.places.now self.new.places.now }
        ensures top { self.new.top ≡ self.old.top }
    {
        let top = self.top;
        self.places[top] = child(level, rule_leaves::later_in(x, 0));
        self.places[top + 1] = child(level, rule_leaves::later_in(x, 1));
        self.places[top + 2] = child(level, rule_leaves::later_in(x, 2));
    }

    // A turn with the rule that x tells, from the number `next` on: its children are put on the stack, over
    // what waits there; the answer is the number that comes next.
    pub fn turn(&mut self, next: usize, x: u64) -> usize
        requires { (next < states_most * depth_most) × (0 < self.old.top) × (self.old.top + 3 ≤ 208) }
        ensures same_places { self.new.places.ghost_name ≡ self.old.places.ghost_name }
        ensures made { TurnMade x next self.old.top self.old.places.now self.new.places.now result }
        ensures few { self.new.top < self.old.top + 7 }
        ensures top { ToldBy x self.new.top (λ r. self.old.top + length r.rest - 1) }
    {
        let level = level_below(next);
        let below = self.places[self.top - 1];
        let first = level + rule_leaves::first_in(x);
        self.push(level, x);
        let kids = rule_leaves::kids_in(x);
        let comes = next_of(kids, below, first);
        self.top = self.top + kids - 1;
        comes
    }
}
