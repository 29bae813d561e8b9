// The word call on an opened table: one measuring loop that leaves a plan, and the writing pass by
// the plan; where the loop finds no word, `why_no_word` tells why, with number and place.
#![tactic(auto)]

ghost use Rattle.std.specs.Prelude.{List, ℕ, ◌≤◌, length};
ghost use Rattle.machine.specs.Machine.{Table};
ghost use Rattle.layout.specs.Layout.{Opened, Meant};
ghost use Rattle.promises.specs.Word.{word_into};
ghost use Rattle.why_no_word.specs.Answer.{Answers};
ghost use Rattle.walk.specs.Plan.{Counted};

use layout::OpenTable;
use why_no_word::Letters;
use words::No;

// Bytes and numbers stay two arrays here, as C lends them: `measure` and `word_writer` read arrays without a test.

// Writes the word of a tree that was counted, between the words of the initial rule: 12 with the
// length needed where the room is too short.
fn write(
    frames: &[u8; layout::FRAMES],
    numbers: &[u64; layout::NUMBERS],
    plan: &[u32; layout::TREE],
    letters: usize,
    room: &mut [u8],
) -> Result<Letters, No>
    requires { letters ≤ 8388608 }
    ensures { (S : List ℕ) (M : Table) → Opened frames.now numbers.now M
        → Counted frames.now S plan.now M M.start letters
        → Answers (word_into M S (length room.old)) room.old room.new result }
{
    let table = OpenTable { frames, numbers };
    let before = layout::word_before(&table);
    let after = layout::word_after(&table);
    let length = before.len() + letters + after.len();
    if room.len() < length {
        return Err(No {
            number: 12,
            place: length,
        });
    }
    let from = tree_word::put(before, room, 0);
    tree_word::put_tree(frames, plan, letters, room, from);
    let end = from + letters;
    tree_word::put(after, room, end);
    let terms = terms::terms_in(room, length);
    Ok(Letters { length, terms })
}

// The word of a tree by an opened table, written to the front of the room, or the refusal.
pub fn find(
    frames: &[u8; layout::FRAMES],
    numbers: &[u64; layout::NUMBERS],
    tree: &[u8],
    plan: &mut [u32; layout::TREE],
    room: &mut [u8],
) -> Result<Letters, No>
    ensures { Meant frames.now numbers.now
        (λ M. Answers (word_into M tree.now (length room.old)) room.old room.new result) }
{
    let counted = measure::measure(numbers, tree, plan);
    let Some(letters) = counted else {
        return Err(why_no_word::why(&OpenTable { frames, numbers }, tree));
    };
    write(frames, numbers, plan, letters, room)
}
