// The calls on records as C and Rust link them: the word of a record, its tree, and the record of a tree, each on a table text and by an
// opened table.
ghost use Rattle.std.specs.Prelude.{length};
ghost use Rattle.promises.specs.Records.{word_of_record, tree_of_record, record_of_tree, on_table, on_text};
ghost use Rattle.layout.specs.Layout.{Meant};
ghost use Rattle.fadurinko_c.specs.Linked.{WordLinked, SpelledLinked};

use layout::OpenTable;

// The word of a record under a table text: its length and terms, and the room begins with it.
#[unsafe(no_mangle)]
pub extern "C" fn fadurinko_record_word(
    text: &[u8],
    record: &[u8],
    room: &mut [u8],
    answer: &mut [usize; entries::ANSWER],
) -> u8
    ensures { WordLinked (on_text word_of_record text.now «record».now (length room.old))
        room.old room.new result answer.new }
{
    let found = fadurinko::record_word(text, record, room);
    entries::tell_word(found, answer)
}

// The tree of a record under a table text: how many bytes it has, and the room begins with them.
#[unsafe(no_mangle)]
pub extern "C" fn fadurinko_record_tree(
    text: &[u8],
    record: &[u8],
    room: &mut [u8],
    answer: &mut [usize; entries::ANSWER],
) -> u8
    ensures { SpelledLinked (on_text tree_of_record text.now «record».now (length room.old))
        room.old room.new result answer.new }
{
    let spelled = fadurinko::record_tree(text, record, room);
    entries::tell_length(spelled, answer)
}

// The record of a tree under a table text: how many bytes it has, and the room begins with them.
#[unsafe(no_mangle)]
pub extern "C" fn fadurinko_tree_record(
    text: &[u8],
    tree: &[u8],
    room: &mut [u8],
    answer: &mut [usize; entries::ANSWER],
) -> u8
    ensures { SpelledLinked (on_text record_of_tree text.now tree.now (length room.old))
        room.old room.new result answer.new }
{
    let spelled = fadurinko::tree_record(text, tree, room);
    entries::tell_length(spelled, answer)
}

// The word of a record by an opened table. What `tree` and `plan` hold before and after says nothing.
#[unsafe(no_mangle)]
pub extern "C" fn fadurinko_record_word_opened(
    frames: &[u8; layout::FRAMES],
    numbers: &[u64; layout::NUMBERS],
    record: &[u8],
    tree: &mut [u8; layout::TREE],
    plan: &mut [u32; layout::TREE],
    room: &mut [u8],
    answer: &mut [usize; entries::ANSWER],
) -> u8
    ensures { Meant frames.now numbers.now
        (λ M. WordLinked (on_table word_of_record M «record».now (length room.old))
        room.old room.new result answer.new) }
{
    let found = record_word_call::find(frames, numbers, record, tree, plan, room);
    entries::tell_word(found, answer)
}

// The tree of a record by an opened table.
#[unsafe(no_mangle)]
pub extern "C" fn fadurinko_record_tree_opened(
    frames: &[u8; layout::FRAMES],
    numbers: &[u64; layout::NUMBERS],
    record: &[u8],
    room: &mut [u8],
    answer: &mut [usize; entries::ANSWER],
) -> u8
    ensures { Meant frames.now numbers.now
        (λ M. SpelledLinked (on_table tree_of_record M «record».now (length room.old))
        room.old room.new result answer.new) }
{
    let spelled = record_tree_call::tree(&OpenTable { frames, numbers }, record, room);
    entries::tell_length(spelled, answer)
}

// The record of a tree by an opened table.
#[unsafe(no_mangle)]
pub extern "C" fn fadurinko_tree_record_opened(
    frames: &[u8; layout::FRAMES],
    numbers: &[u64; layout::NUMBERS],
    tree: &[u8],
    room: &mut [u8],
    answer: &mut [usize; entries::ANSWER],
) -> u8
    ensures { Meant frames.now numbers.now
        (λ M. SpelledLinked (on_table record_of_tree M tree.now (length room.old))
        room.old room.new result answer.new) }
{
    let spelled = tree_record_call::record(&OpenTable { frames, numbers }, tree, room);
    entries::tell_length(spelled, answer)
}
