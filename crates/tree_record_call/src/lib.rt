// The record of a tree by an opened table: where the tree bytes are a record's image its stream is written; else why not.
#![tactic(auto)]

ghost use Rattle.std.specs.Prelude.{◌≡◌, ◌<◌, ◌≤◌, length};
ghost use Rattle.words.specs.Reply.{given};
ghost use Rattle.words.specs.Told.{Told};
ghost use Rattle.trees.specs.Shape.{tree_most};
ghost use Rattle.records.specs.Symbols.{last_symbol};
ghost use Rattle.layout.specs.Lent.{Means};
ghost use Rattle.promises.specs.Room.{into};
ghost use Rattle.promises.specs.Records.{record_of_tree, on_table};
ghost use Rattle.spelling.specs.Spells.{Spells};
ghost use Rattle.tree_record_call.specs.ImageTold.{image_told, ImageBytes, stream_of};

use layout::OpenTable;
use words::No;

// Whether tree bytes are a record's stream, with the last symbol for each ff, and one last symbol more.
fn is_image(tree: &[u8], last: u8) -> bool
    requires { 0 < length tree.now }
    ensures { Told (ImageBytes last tree.now) result }
{
    let end = tree.len() - 1;
    tree[end] == last && stream_check::check(&tree[..end], last, last).is_ok()
}

// Whether tree bytes are a record's image, told by their shape first; where that is right, what refuses their stream is 24's place.
fn by_shape(table: &OpenTable<'_, '_>, last: u8, tree: &[u8]) -> Result<(), No>
    requires { 0 < length tree.now }
    ensures { Means table.now
        (λ M. last_symbol M.arities ≡ given last → result ≡ image_told M.arities last tree.now) }
{
    shape::check(table, tree)?;
    let end = tree.len() - 1;
    match stream_check::check(&tree[..end], last, last) {
        Ok(()) => Ok(()),
        Err(no) => Err(No {
            number: 24,
            place: no.place,
        }),
    }
}

// Whether tree bytes are a record's image: if their stream says so, only 10 can be against it; else their shape tells.
fn check(table: &OpenTable<'_, '_>, last: u8, tree: &[u8]) -> Result<(), No>
    requires { (0 < length tree.now) × (length tree.now ≤ tree_most) }
    ensures { Means table.now
        (λ M. last_symbol M.arities ≡ given last → result ≡ image_told M.arities last tree.now) }
{
    if !is_image(tree, last) {
        return by_shape(table, last, tree);
    }
    let end = tree.len() - 1;
    image_levels::levels(&tree[..end], last)
}

// Writes the stream of which tree bytes are the image to the front of the room; 12 where that is too short.
fn put(tree: &[u8], last: u8, room: &mut [u8]) -> Result<usize, No>
    requires { 0 < length tree.now }
    ensures { Spells (into (length room.old) (given (stream_of last tree.now))) room.old room.new result }
{
    let length = tree.len() - 1;
    if room.len() < length {
        return Err(No {
            number: 12,
            place: length,
        });
    }
    spelling::put_replaced(&tree[..length], last, 255, room);
    Ok(length)
}

// The record under a list with that last symbol: 6, then the other refusals of the image, then 12.
fn record_under(
    table: &OpenTable<'_, '_>,
    last: u8,
    tree: &[u8],
    room: &mut [u8],
) -> Result<usize, No>
    ensures { Means table.now (λ M. last_symbol M.arities ≡ given last
        → Spells (on_table record_of_tree M tree.now (length room.old)) room.old room.new result) }
{
    if tree.is_empty() || layout::TREE < tree.len() {
        return Err(No {
            number: 6,
            place: 0,
        });
    }
    check(table, last, tree)?;
    put(tree, last, room)
}

// The stream of the record of which tree bytes are the image, written to the front of the room; or the refusal, and the room as it was.
pub fn record(table: &OpenTable<'_, '_>, tree: &[u8], room: &mut [u8]) -> Result<usize, No>
    ensures { Means table.now
        (λ M. Spells (on_table record_of_tree M tree.now (length room.old)) room.old room.new result) }
{
    let last = record_symbols::last_symbol(table)?;
    record_under(table, last, tree, room)
}
