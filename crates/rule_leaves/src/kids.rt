// Comparing the children of two rules by what is kept for the rules: each list gives every state a byte, `map` those of
// one table, `map2` those of the other, and states with one byte are alike.
ghost use Rattle.std.specs.Prelude.{◌≡◌, ℕ, length};
ghost use Rattle.words.specs.Told.{Told};
ghost use Rattle.machine.specs.Machine.{Rule};
ghost use Rattle.layout.specs.Leaves.{Encodes};
ghost use Rattle.layout.specs.Kids.{Alike, Kids};

use crate::kept::{first_in, kids_in, later_in};
use layout::{ARITY, STATES};

// Whether the children of two rules with as many children are alike, each in turn: the first, then from the last on, as they are kept.
// In one loop, by `child_in`, two children took twice the instructions; in a loop up to the number of children a third more.
pub fn kids_alike(map: &[u8; STATES], x: u64, map2: &[u8; STATES], y: u64) -> bool
    ensures { (i j : ℕ) (a b : Rule) → Encodes x i a → Encodes y j b → length a.rest ≡ length b.rest
        → Told (Kids (Alike map.now map2.now) a.rest b.rest) result }
{
    let kids = kids_in(x);
    if kids == 0 {
        return true;
    }
    if map[first_in(x)] != map2[first_in(y)] {
        return false;
    }
    // A rule has at most so many children behind the first: the compiler writes these turns out, and no loop is left.
    for n in 0..ARITY - 1 {
        if kids <= n + 1 {
            return true;
        }
        if map[later_in(x, n)] != map2[later_in(y, n)] {
            return false;
        }
    }
    true
}
