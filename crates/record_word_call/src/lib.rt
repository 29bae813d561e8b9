// The word of a record by an opened table: its stream is read, its image spelled out in lent bytes, and the image's word found.
#![tactic(auto)]

ghost use Rattle.std.specs.Prelude.{List, [], ◌∷◌, ◌++◌, map, ◌<◌, length};
ghost use Rattle.records.specs.Records.{spell};
ghost use Rattle.layout.specs.Layout.{Meant};
ghost use Rattle.promises.specs.Word.{word_into};
ghost use Rattle.promises.specs.Records.{word_of_record, on_table};
ghost use Rattle.why_no_word.specs.Answer.{Answers};

use layout::OpenTable;
use why_no_word::Letters;
use words::No;

// Bytes and numbers stay two arrays here, as C lends them: `word_call` asks for them so.

// The word of the image of a stream's record, which is spelled out in `tree`: the word of its tree bytes.
fn find_image(
    frames: &[u8; layout::FRAMES],
    numbers: &[u64; layout::NUMBERS],
    stream: &[u8],
    last: u8,
    tree: &mut [u8],
    plan: &mut [u32; layout::TREE],
    room: &mut [u8],
) -> Result<Letters, No>
    requires { length stream.now < length tree.old }
    ensures { Meant frames.now numbers.now
        (λ M. Answers (word_into M (map (spell last) stream.now ++ last ∷ []) (length room.old))
        room.old room.new result) }
{
    spelling::put_image(stream, last, tree);
    word_call::find(frames, numbers, &tree[..stream.len() + 1], plan, room)
}

// The word of a record by an opened table, written to the front of the room; or the refusal, and the room as it was. What `tree` and
// `plan` hold before and after says nothing.
pub fn find(
    frames: &[u8; layout::FRAMES],
    numbers: &[u64; layout::NUMBERS],
    stream: &[u8],
    tree: &mut [u8; layout::TREE],
    plan: &mut [u32; layout::TREE],
    room: &mut [u8],
) -> Result<Letters, No>
    ensures { Meant frames.now numbers.now
        (λ M. Answers (on_table word_of_record M stream.now (length room.old)) room.old room.new result) }
{
    let last = read_record::read(&OpenTable { frames, numbers }, stream)?;
    find_image(frames, numbers, stream, last, tree, plan, room)
}
