// The public calls on texts: word, judge, form and compare; the word and the tree of a record, and the record of a tree. None asks
// anything of its inputs; each settles number, place, counts and every byte of the room.
#![tactic(auto)]

ghost use Rattle.std.specs.Prelude.{length};
ghost use Rattle.promises.specs.Word.{word_answer};
ghost use Rattle.promises.specs.Records.{word_of_record, tree_of_record, record_of_tree, on_text};
ghost use Rattle.promises.specs.Judgement.{JudgementAnswer};
ghost use Rattle.promises.specs.Comparison.{ComparisonAnswer};
ghost use Rattle.verdict.specs.Judgement.{verdict_of};
ghost use Rattle.why_no_word.specs.Answer.{Answers};
ghost use Rattle.spelling.specs.Spells.{Spells};
ghost use Rattle.form_call.specs.Formed.{FormAnswered};
ghost use Rattle.comparison.specs.Answers.{comparison_of};

use comparison::TableNo;
use why_no_word::Letters;
use words::No;

// The word of a tree under a table text, written to the front of the room; or the refusal, and the
// room as it was.
pub fn word(text: &[u8], tree: &[u8], room: &mut [u8]) -> Result<Letters, No>
    ensures { Answers (word_answer text.now tree.now (length room.old))
        room.old room.new result }
{
    word_by_text::word(text, tree, room)
}

// The judgement of a table text: earliest, or the refusal.
pub fn judge(text: &[u8]) -> Result<(), No>
    ensures { JudgementAnswer text.now (verdict_of result) }
{
    judge_call::judge(text)
}

// The form of a table text, written to the front of the room; or the refusal, and the room as it was.
pub fn form(text: &[u8], room: &mut [u8]) -> Result<usize, No>
    ensures { FormAnswered text.now room.old room.new result }
{
    form_call::form(text, room)
}

// Whether two table texts are the same: the first's refusals, the second's, then 19; else whether their forms agree.
pub fn compare(first: &[u8], second: &[u8]) -> Result<bool, TableNo>
    ensures { ComparisonAnswer first.now second.now (comparison_of result) }
{
    compare_call::compare(first, second)
}

// The word of a record under a table text, written to the front of the room; or the refusal, and the room as it was.
pub fn record_word(text: &[u8], record: &[u8], room: &mut [u8]) -> Result<Letters, No>
    ensures { Answers (on_text word_of_record text.now «record».now (length room.old))
        room.old room.new result }
{
    records_by_text::record_word(text, record, room)
}

// The tree bytes of a record under a table text, written to the front of the room; or the refusal, and the room as it was.
pub fn record_tree(text: &[u8], record: &[u8], room: &mut [u8]) -> Result<usize, No>
    ensures { Spells (on_text tree_of_record text.now «record».now (length room.old))
        room.old room.new result }
{
    records_by_text::record_tree(text, record, room)
}

// The record of which tree bytes are the image, under a table text, written to the front of the room; or the refusal, and the room as it
// was.
pub fn tree_record(text: &[u8], tree: &[u8], room: &mut [u8]) -> Result<usize, No>
    ensures { Spells (on_text record_of_tree text.now tree.now (length room.old))
        room.old room.new result }
{
    records_by_text::tree_record(text, tree, room)
}
