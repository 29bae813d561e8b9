// The reading of a stream under an opened table: the last symbol of its list, where the stream is a record's with an image of at most
// 32,768 symbols; or 20, 21, 22, 23 or 6.
#![tactic(auto)]

ghost use Rattle.std.specs.Prelude.{◌≡◌, List, ℕ};
ghost use Rattle.words.specs.Reply.{given};
ghost use Rattle.records.specs.Symbols.{last_symbol};
ghost use Rattle.layout.specs.Lent.{Means};
ghost use Rattle.read_record.specs.RecordRead.{RecordRead, FewRead};

use layout::OpenTable;
use words::No;

// Reads a stream under a list with that last symbol: 21 to 23, then 6.
fn read_under(last: u8, stream: &[u8]) -> Result<u8, No>
    ensures few_read { FewRead stream.now result }
    ensures by_index { (ar : List ℕ) → last_symbol ar ≡ given last → RecordRead ar stream.now result }
{
    stream_check::check(stream, last, 255)?;
    if layout::TREE <= stream.len() {
        return Err(No {
            number: 6,
            place: 0,
        });
    }
    Ok(last)
}

// Reads a stream: the last symbol of the list under which it is a record's; or 20 for the list, then 21 to 23, then 6 for an image of
// too many symbols.
pub fn read(table: &OpenTable<'_, '_>, stream: &[u8]) -> Result<u8, No>
    ensures few_read { FewRead stream.now result }
    ensures meant { Means table.now (λ M. RecordRead M.arities stream.now result) }
{
    let last = record_symbols::last_symbol(table)?;
    read_under(last, stream)
}
