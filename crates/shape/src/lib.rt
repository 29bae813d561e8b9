// The shape of tree bytes: whether they are one tree, over the symbols of an opened table.
#![tactic(auto)]

ghost use Rattle.std.specs.Prelude.{◌≡◌, Err, List, ℕ, ◌≤◌, length, drop, IfOk};
ghost use Rattle.machine.specs.Machine.{Table};
ghost use Rattle.words.specs.Reply.{no_at};
ghost use Rattle.trees.specs.Shape.{tree_at, read_tree};
ghost use Rattle.layout.specs.Layout.{Opened};
ghost use Rattle.layout.specs.Lent.{Means};
ghost use Rattle.shape.specs.Shaped.{ends, size};

use layout::OpenTable;
use words::No;

fn refuse(number: u8, place: usize) -> Result<usize, No>
    ensures { result ≡ Err (no_at number place) }
{
    Err(No { number, place })
}

// The tree that stands at `at`, with so many levels allowed: the place behind it, or the refusal.
fn tree_at(
    levels: usize,
    frames: &[u8],
    symbols: usize,
    tree: &[u8],
    at: usize,
) -> Result<usize, No>
    requires { at ≤ length tree.now }
    ensures by_index { (I : List ℕ) (M : Table) → Opened frames.now I M → symbols ≡ length M.arities
        → result ≡ ends (tree_at levels M.arities at (drop at tree.now)) }
    ensures inside { IfOk result (λ next. next ≤ length tree.now) }
{
    if at == tree.len() {
        return refuse(8, at);
    }
    let f = usize::from(tree[at]);
    if symbols <= f {
        return refuse(7, at);
    }
    if levels == 0 {
        return refuse(10, at);
    }
    let children = layout::arity(frames, f);
    let mut next = at + 1;
    for _child in 0..children {
        next = tree_at(levels - 1, frames, symbols, tree, next)?;
    }
    Ok(next)
}

// Whether tree bytes are one tree of at most 64 levels over the symbols: how long it is, or the refusal 6, 7, 8, 10 or 11.
pub fn check(table: &OpenTable<'_, '_>, tree: &[u8]) -> Result<usize, No>
    ensures { Means table.now (λ M. result ≡ size (read_tree M.arities tree.now)) }
{
    if tree.is_empty() || layout::TREE < tree.len() {
        return refuse(6, 0);
    }
    let symbols = layout::symbols(table.numbers);
    let next = tree_at(layout::LEVELS, table.frames, symbols, tree, 0)?;
    if next < tree.len() {
        return refuse(11, next);
    }
    Ok(next)
}
