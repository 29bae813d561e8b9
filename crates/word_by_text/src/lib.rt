// The word of a tree under a table text: it is opened, and the word is found where that is not refused.
#![tactic(auto)]

ghost use Rattle.std.specs.Prelude.{length};
ghost use Rattle.promises.specs.Word.{word_answer};
ghost use Rattle.why_no_word.specs.Answer.{Answers};

use why_no_word::Letters;
use words::No;

// The word of a tree under a table text, written to the front of the room; or the refusal, and the
// room as it was.
pub fn word(text: &[u8], tree: &[u8], room: &mut [u8]) -> Result<Letters, No>
    ensures { Answers (word_answer text.now tree.now (length room.old))
        room.old room.new result }
{
    let mut frames = [0u8; layout::FRAMES];
    let mut numbers = [0u64; layout::NUMBERS];
    if let Err(no) = table::read(text, &mut frames, &mut numbers) {
        return Err(no);
    }
    let mut plan = [0u32; layout::TREE];
    word_call::find(&frames, &numbers, tree, &mut plan, room)
}
