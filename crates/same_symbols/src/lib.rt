// Where the symbol lists of two opened tables part.
// Nothing is asked of the lent bytes: each contract speaks of every two tables that they mean.
#![tactic(auto)]

ghost use Rattle.std.specs.Prelude.{◌≡◌, List, ℕ, ◌≤◌, length};
ghost use Rattle.machine.specs.Machine.{Table};
ghost use Rattle.text.specs.Limits.{symbols_most};
ghost use Rattle.promises.specs.Comparison.{parting};
ghost use Rattle.layout.specs.Layout.{Opened};
ghost use Rattle.same_symbols.specs.Parting.{AlikeFor, parting_of};

use layout::OpenTable;

// How many of the first n symbols have one arity in both tables, up to the first that has another.
fn alike(frames: &[u8], frames2: &[u8], n: usize) -> usize
    requires { n ≤ symbols_most }
    ensures { (I J : List ℕ) (M N : Table) → Opened frames.now I M → Opened frames2.now J N
        → n ≤ length M.arities → n ≤ length N.arities → AlikeFor M.arities N.arities n result }
{
    for i in 0..n {
        if layout::arity(frames, i) != layout::arity(frames2, i) {
            return i;
        }
    }
    n
}

// The first index where the symbol lists of two opened tables part, or that they are the same.
pub fn symbols_part(first: &OpenTable<'_, '_>, second: &OpenTable<'_, '_>) -> Option<usize>
    ensures { (M N : Table) → Opened first.now.frames.now first.now.numbers.now M
        → Opened second.now.frames.now second.now.numbers.now N → parting_of result ≡ parting M.arities N.arities }
{
    let mine = layout::symbols(first.numbers);
    let others = layout::symbols(second.numbers);
    let i = alike(first.frames, second.frames, mine.min(others));
    if i == mine.max(others) { None } else { Some(i) }
}
