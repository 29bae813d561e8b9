// The judgement of a table text: it is opened, and judged where that is not refused.
#![tactic(auto)]

ghost use Rattle.std.specs.Prelude.{◌≡◌};
ghost use Rattle.promises.specs.Judgement.{JudgementAnswer};
ghost use Rattle.verdict.specs.Judgement.{verdict_of};
ghost use Rattle.judge_call.specs.Judging.{Judges};

use layout::OpenTable;
use words::No;

// The judgement of a table text, any bytes: 1 to 5 of the text, 13 to 18 of the table. Where it is
// earliest, what was lent is the opened table.
pub fn judge_into(
    text: &[u8],
    frames: &mut [u8; layout::FRAMES],
    numbers: &mut [u64; layout::NUMBERS],
) -> Result<(), No>
    ensures { Judges text.now frames.new numbers.new result }
{
    table::read(text, frames, numbers)?;
    verdict::judge_opened(&OpenTable { frames, numbers })
}

// The judgement of a table text: any bytes.
pub fn judge(text: &[u8]) -> Result<(), No>
    ensures { JudgementAnswer text.now (verdict_of result) }
{
    let mut frames = [0u8; layout::FRAMES];
    let mut numbers = [0u64; layout::NUMBERS];
    judge_into(text, &mut frames, &mut numbers)
}
