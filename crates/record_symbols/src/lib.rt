// The last symbol of an opened table whose symbol list is one for records; or 20 at the first wrong index.
#![tactic(auto)]

ghost use Rattle.std.specs.Prelude.{◌≡◌, Err};
ghost use Rattle.words.specs.Reply.{no_at};
ghost use Rattle.records.specs.Symbols.{last_symbol};
ghost use Rattle.layout.specs.Lent.{Means};

use layout::OpenTable;
use words::No;

// 20 at symbol i.
fn wrong_at(i: usize) -> Result<u8, No>
    ensures { result ≡ Err (no_at 20 i) }
{
    Err(No {
        number: 20,
        place: i,
    })
}

// The last symbol of an opened table, where all symbols before it have arity 2 and it has 0; or 20.
pub fn last_symbol(table: &OpenTable<'_, '_>) -> Result<u8, No>
    ensures { Means table.now (λ M. result ≡ last_symbol M.arities) }
{
    let last = layout::symbols(table.numbers).saturating_sub(1);
    for i in 0..last {
        if layout::arity(table.frames, i) != 2 {
            return wrong_at(i);
        }
    }
    if layout::arity(table.frames, last) != 0 {
        return wrong_at(last);
    }
    Ok(last as u8)
}
