// The writing pass of the word of a tree, by the plan that measuring left.
#![tactic(auto)]

ghost use Rattle.std.specs.Prelude.{◌≡◌, ℕ, ◌<◌, length};
ghost use Rattle.words.specs.Word.{Word};
ghost use Rattle.words.specs.Told.{Told};
ghost use Rattle.machine.specs.Machine.{Tree, Table};
ghost use Rattle.trees.specs.Preorder.{preorder};
ghost use Rattle.trees.specs.Shape.{tree_most};
ghost use Rattle.word_writer.specs.WordWritten.{Due, WordWritten, Tidy, GoesOn, EndsBehind};

// What a call wrote: how many letters, and the place behind the tree.
#[derive(Clone, Copy)]
pub struct Written {
    pub letters: usize,
    pub place: usize,
}

fn narrow(x: u32) -> usize
    ensures { result ≡ x }
{
    x as usize
}

// Whether a child can be called for: a level is left for it, and its place and the spot of the word
// before it lie in what is lent.
fn goes_on(lower: usize, next: usize, p: usize) -> bool
    ensures { Told (GoesOn lower next p) result }
{
    0 < lower && next < layout::TREE && p < layout::FRAMES
}

// Writes the word of the planned tree at `at` to the front of the room, with so many levels allowed, and calls itself for each child, with the room on.
// Where a child cannot be called for, it stops at what it has; the place is always behind its own, so that no two calls are for one place of the plan.
fn node(
    levels: usize,
    plan: &[u32; layout::TREE],
    frames: &[u8; layout::FRAMES],
    at: usize,
    room: &mut [u8],
) -> Written
    requires { (0 < levels) × (at < tree_most) }
    ensures word_written { (M : Table) (q : ℕ) (t : Tree) (w : Word) → Due frames.now plan.now at levels (length room.old) M q t w
        → WordWritten w at (length (preorder t)) room.new result }
    ensures tidy { Tidy room.old room.new result }
    ensures ends_behind { EndsBehind at result }
{
    let lower = levels - 1;
    let entry = narrow(plan[at]);
    let mut p = entry % walk::PLAN_UNIT;
    let mut left = entry / walk::PLAN_UNIT;
    let mut end: usize = 0;
    let mut next = at + 1;
    // A word stands before each child and behind the last, so the loop ends in its middle, and no range has its turns.
    loop {
        end = word_leaves::put_word(frames, p, room, end);
        if left == 0 || !goes_on(lower, next, p) {
            return Written {
                letters: end,
                place: next,
            };
        }
        p = word_leaves::next_spot_full(frames, p);
        let below = node(lower, plan, frames, next, &mut room[end..]);
        next = below.place;
        end += below.letters;
        left -= 1;
    }
}

// Writes the word of the planned tree at `at`, as `node` does. Whatever the plan, the bytes, the
// place and the levels are, the place answered is behind its own, or the plan has ended.
pub fn eval(
    levels: usize,
    plan: &[u32; layout::TREE],
    frames: &[u8; layout::FRAMES],
    at: usize,
    room: &mut [u8],
) -> Written
    ensures word_written { (M : Table) (q : ℕ) (t : Tree) (w : Word) → Due frames.now plan.now at levels (length room.old) M q t w
        → WordWritten w at (length (preorder t)) room.new result }
    ensures tidy { Tidy room.old room.new result }
    ensures ends_behind { EndsBehind at result }
{
    if layout::TREE <= at {
        return Written {
            letters: 0,
            place: layout::TREE,
        };
    }
    if levels == 0 {
        return Written {
            letters: 0,
            place: at + 1,
        };
    }
    node(levels, plan, frames, at, room)
}
