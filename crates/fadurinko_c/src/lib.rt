// The public calls as C and Rust link them. The number is returned, 0 for a yes; what else an answer
// holds goes into one array, every entry of which each call writes. Those on records: record_calls.rt.
#![tactic(auto)]

ghost use Rattle.std.specs.Prelude.{length};
ghost use Rattle.machine.specs.Machine.{Table};
ghost use Rattle.machine.specs.Verdict as verdict;
ghost use Rattle.text.specs.Reading.{read_table};
ghost use Rattle.promises.specs.Word.{word_answer, word_into};
ghost use Rattle.promises.specs.Judgement.{JudgementAnswer};
ghost use Rattle.layout.specs.Layout.{Meant};
ghost use Rattle.fadurinko_c.specs.Linked.{WordLinked, FormLinked, JudgedLinked, ComparedLinked, OpenLinked};

use layout::OpenTable;

mod record_calls;

// The word of a tree under a table text: its length and terms, and the room begins with it.
#[unsafe(no_mangle)]
pub extern "C" fn fadurinko_word(
    text: &[u8],
    tree: &[u8],
    room: &mut [u8],
    answer: &mut [usize; entries::ANSWER],
) -> u8
    ensures { WordLinked (word_answer text.now tree.now (length room.old))
        room.old room.new result answer.new }
{
    let found = fadurinko::word(text, tree, room);
    entries::tell_word(found, answer)
}

// The judgement of a table text.
#[unsafe(no_mangle)]
pub extern "C" fn fadurinko_judge(text: &[u8], answer: &mut [usize; entries::ANSWER]) -> u8
    ensures { JudgedLinked (λ v. JudgementAnswer text.now v) result answer.new }
{
    let judgement = fadurinko::judge(text);
    entries::tell_nothing(judgement, answer)
}

// The form of a table text: its length, and the room begins with it.
#[unsafe(no_mangle)]
pub extern "C" fn fadurinko_form(
    text: &[u8],
    room: &mut [u8],
    answer: &mut [usize; entries::ANSWER],
) -> u8
    ensures { FormLinked text.now room.old room.new result answer.new }
{
    let formed = fadurinko::form(text, room);
    entries::tell_length(formed, answer)
}

// Compares two table texts: same or different, or a no with the table that it is about.
#[unsafe(no_mangle)]
pub extern "C" fn fadurinko_compare(
    first: &[u8],
    second: &[u8],
    answer: &mut [usize; entries::ANSWER],
) -> u8
    ensures { ComparedLinked first.now second.now result answer.new }
{
    let compared = fadurinko::compare(first, second);
    entries::tell_comparison(compared, answer)
}

// Opens a table text into what the caller lends; where it is refused, frames and numbers are as they
// were.
#[unsafe(no_mangle)]
pub extern "C" fn fadurinko_open(
    text: &[u8],
    frames: &mut [u8; layout::FRAMES],
    numbers: &mut [u64; layout::NUMBERS],
    answer: &mut [usize; entries::ANSWER],
) -> u8
    ensures { OpenLinked (read_table text.now) frames.old numbers.old
        frames.new numbers.new result answer.new }
{
    let opening = table::open(text, frames, numbers);
    entries::tell_nothing(opening, answer)
}

// The word of a tree by an opened table. What the plan holds before and after says nothing.
#[unsafe(no_mangle)]
pub extern "C" fn fadurinko_find(
    frames: &[u8; layout::FRAMES],
    numbers: &[u64; layout::NUMBERS],
    tree: &[u8],
    plan: &mut [u32; layout::TREE],
    room: &mut [u8],
    answer: &mut [usize; entries::ANSWER],
) -> u8
    ensures { Meant frames.now numbers.now (λ M. WordLinked (word_into M tree.now (length room.old))
        room.old room.new result answer.new) }
{
    let found = word_call::find(frames, numbers, tree, plan, room);
    entries::tell_word(found, answer)
}

// The judgement of an opened table.
#[unsafe(no_mangle)]
pub extern "C" fn fadurinko_judge_opened(
    frames: &[u8; layout::FRAMES],
    numbers: &[u64; layout::NUMBERS],
    answer: &mut [usize; entries::ANSWER],
) -> u8
    ensures { Meant frames.now numbers.now (λ M. JudgedLinked (λ v. verdict.Judged M v) result answer.new) }
{
    let judgement = verdict::judge_opened(&OpenTable { frames, numbers });
    entries::tell_nothing(judgement, answer)
}
