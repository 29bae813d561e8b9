// Two table texts compared: both are judged, and their tables compared where both are earliest.
#![tactic(auto)]

ghost use Rattle.promises.specs.Comparison.{ComparisonAnswer};
ghost use Rattle.comparison.specs.Answers.{comparison_of};

use comparison::TableNo;
use layout::OpenTable;

// Whether two table texts are the same: the first's refusals, the second's, then 19; else whether their forms agree.
pub fn compare(first: &[u8], second: &[u8]) -> Result<bool, TableNo>
    ensures { ComparisonAnswer first.now second.now (comparison_of result) }
{
    let mut frames = [0u8; layout::FRAMES];
    let mut numbers = [0u64; layout::NUMBERS];
    judge_call::judge_into(first, &mut frames, &mut numbers).map_err(|refusal| TableNo {
        table: 1,
        refusal,
    })?;
    let mut frames2 = [0u8; layout::FRAMES];
    let mut numbers2 = [0u64; layout::NUMBERS];
    judge_call::judge_into(second, &mut frames2, &mut numbers2).map_err(|refusal| TableNo {
        table: 2,
        refusal,
    })?;
    comparison::compare_opened(
        &OpenTable {
            frames: &frames,
            numbers: &numbers,
        },
        &OpenTable {
            frames: &frames2,
            numbers: &numbers2,
        },
    )
}
