// The tree of a record by an opened table: its stream is read, the levels of its image are counted, and the image is spelled out.
#![tactic(auto)]

ghost use Rattle.std.specs.Prelude.{List, ℕ, ◌<◌, length};
ghost use Rattle.trees.specs.Shape.{tree_most};
ghost use Rattle.records.specs.Calls.{tree_of};
ghost use Rattle.layout.specs.Lent.{Means};
ghost use Rattle.promises.specs.Room.{into};
ghost use Rattle.promises.specs.Records.{tree_of_record, on_table};
ghost use Rattle.read_record.specs.RecordRead.{ReadUnder};
ghost use Rattle.spelling.specs.Spells.{Spells};

use layout::OpenTable;
use words::No;

// The tree bytes of a record that was read under a list with that last symbol, put to the front of the room; or 10, or 12.
fn spell(stream: &[u8], last: u8, room: &mut [u8]) -> Result<usize, No>
    requires { length stream.now < tree_most }
    ensures { (ar : List ℕ) → ReadUnder ar stream.now last
        → Spells (into (length room.old) (tree_of ar stream.now)) room.old room.new result }
{
    image_levels::levels(stream, 255)?;
    let bytes = stream.len() + 1;
    if room.len() < bytes {
        return Err(No {
            number: 12,
            place: bytes,
        });
    }
    spelling::put_image(stream, last, room);
    Ok(bytes)
}

// The tree bytes of a record by an opened table, written to the front of the room; or the refusal, and the room as it was.
pub fn tree(table: &OpenTable<'_, '_>, stream: &[u8], room: &mut [u8]) -> Result<usize, No>
    ensures { Means table.now
        (λ M. Spells (on_table tree_of_record M stream.now (length room.old)) room.old room.new result) }
{
    let last = read_record::read(table, stream)?;
    spell(stream, last, room)
}
