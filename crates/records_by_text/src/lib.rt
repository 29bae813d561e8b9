// The calls on records under a table text: it is opened, and the call made on the opened table where that is not refused.
#![tactic(auto)]

ghost use Rattle.std.specs.Prelude.{length};
ghost use Rattle.promises.specs.Records.{word_of_record, tree_of_record, record_of_tree, on_text};
ghost use Rattle.why_no_word.specs.Answer.{Answers};
ghost use Rattle.spelling.specs.Spells.{Spells};

use layout::OpenTable;
use why_no_word::Letters;
use words::No;

// The word of a record under a table text, written to the front of the room; or the refusal, and the room as it was.
pub fn record_word(text: &[u8], stream: &[u8], room: &mut [u8]) -> Result<Letters, No>
    ensures { Answers (on_text word_of_record text.now stream.now (length room.old))
        room.old room.new result }
{
    let mut frames = [0u8; layout::FRAMES];
    let mut numbers = [0u64; layout::NUMBERS];
    table::read(text, &mut frames, &mut numbers)?;
    let mut tree = [0u8; layout::TREE];
    let mut plan = [0u32; layout::TREE];
    record_word_call::find(&frames, &numbers, stream, &mut tree, &mut plan, room)
}

// The tree bytes of a record under a table text, written to the front of the room; or the refusal, and the room as it was.
pub fn record_tree(text: &[u8], stream: &[u8], room: &mut [u8]) -> Result<usize, No>
    ensures { Spells (on_text tree_of_record text.now stream.now (length room.old))
        room.old room.new result }
{
    let mut frames = [0u8; layout::FRAMES];
    let mut numbers = [0u64; layout::NUMBERS];
    table::read(text, &mut frames, &mut numbers)?;
    let table = OpenTable {
        frames: &frames,
        numbers: &numbers,
    };
    record_tree_call::tree(&table, stream, room)
}

// The stream of the record of which tree bytes are the image, under a table text, written to the front of the room; or the refusal, and
// the room as it was.
pub fn tree_record(text: &[u8], tree: &[u8], room: &mut [u8]) -> Result<usize, No>
    ensures { Spells (on_text record_of_tree text.now tree.now (length room.old))
        room.old room.new result }
{
    let mut frames = [0u8; layout::FRAMES];
    let mut numbers = [0u64; layout::NUMBERS];
    table::read(text, &mut frames, &mut numbers)?;
    let table = OpenTable {
        frames: &frames,
        numbers: &numbers,
    };
    tree_record_call::record(&table, tree, room)
}
