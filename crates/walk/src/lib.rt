// The walk down a tree by an opened table, from each symbol to its children in the states of its
// rule: where a rule is lacking.
#![tactic(auto)]

ghost use Rattle.std.specs.Prelude.{◌≡◌, List, ℕ, ◌+◌, ◌≤◌, length};
ghost use Rattle.machine.specs.Machine.{Tree, Table};
ghost use Rattle.trees.specs.Preorder.{preorder};
ghost use Rattle.trees.specs.Lacking.{lacks};
ghost use Rattle.walk.specs.Walked.{TreeStands, walked, Onward};

// From this unit on a plan's number tells how many children a rule has, and below it the spot of its first word.
pub const PLAN_UNIT: usize = 131072;

// The first position of a tree that has no rule.
#[derive(Clone, Copy)]
pub struct Lack {
    pub place: usize,
}

// The place behind the tree at `at`, if from state q on each position has a rule, with so many levels
// allowed; or the first that has none. Whatever the lent numbers are, a walk that ends has gone on: no two calls are for one place.
pub fn lacking(
    levels: usize,
    numbers: &[u64],
    tree: &[u8],
    at: usize,
    q: usize,
) -> Result<usize, Lack>
    requires { at ≤ length tree.now }
    ensures by_index { (F : List ℕ) (M : Table) (t : Tree) → TreeStands F numbers.now tree.now at levels M t
        → result ≡ walked (lacks M q t at) (at + length (preorder t)) }
    ensures onward { Onward at (length tree.now) result }
{
    if levels == 0 || at == tree.len() {
        return Err(Lack { place: at });
    }
    let x = rule_leaves::kept_for(numbers, q, usize::from(tree[at]));
    if x == 0 {
        return Err(Lack { place: at });
    }
    let kids = rule_leaves::kids_in(x);
    let mut next = at + 1;
    for j in 0..kids {
        let state = rule_leaves::child_in(x, j);
        match lacking(levels - 1, numbers, tree, next, state) {
            Ok(behind) => next = behind,
            Err(lack) => return Err(lack),
        }
    }
    Ok(next)
}
