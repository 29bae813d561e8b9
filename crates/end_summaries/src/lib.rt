// The ends of each state's words in an opened table, at the left or at the right: whether there is no letter, one and which, or several.
// Nothing is asked of the lent bytes and numbers: reads are clamped, and each contract speaks of every table that they mean.
#![tactic(auto)]

ghost use Rattle.summary.specs.Codes.{side_of};
ghost use Rattle.end_summaries.specs.Steps.{Settles};

use crate::adding::add_states;
use layout::{NUMBERS, OpenTable, STATES};
use summary::{Side, Summary};

mod adding;

// The summaries of the states' words at a side: rules are added to them, state by state, until none adds anything.
// The empty word is told before, so that a state with several letters is finished.
pub fn settle(
    table: &OpenTable<'_, '_>,
    order: &[u8],
    n: usize,
    side: Side,
    values: &mut [Summary; STATES],
)
    ensures { Settles table.now.frames.now table.now.numbers.now order.now n (side_of side) values.old values.new }
{
    // Reading asks how many numbers there are: it is told once here, so that no read below asks again.
    let Ok(numbers) = <&[u64; NUMBERS]>::try_from(table.numbers) else {
        return;
    };
    let table = &OpenTable {
        frames: table.frames,
        numbers,
    };
    // How many passes there are shows only when one adds nothing, so no range has their end.
    loop {
        // Nothing is asked of n, which may be more than order has, so it is no slice.
        let k = add_states(table, order, n, side, values);
        if k == 0 {
            break;
        }
    }
}
