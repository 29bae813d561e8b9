// The judgement of an opened table: refusals 13 to 18.
// Nothing is asked of the lent bytes and numbers: reads are clamped, and each contract speaks of every table that they mean.
#![tactic(auto)]

ghost use Rattle.machine.specs.Verdict.{Judged};
ghost use Rattle.layout.specs.Layout.{MeantBy};
ghost use Rattle.layout.specs.Lent.{Means};
ghost use Rattle.visit.specs.Reaches.{Reaches};
ghost use Rattle.verdict.specs.Judgement.{verdict_of};

use layout::{OpenTable, STATES};
use summary::{Side, UNTOLD};
use words::No;

// The states that are reached: the first `count` of `order`, and those with a mark other than 0. The walk's queue is longer, and is let go.
#[derive(Clone, Copy)]
struct Reached {
    order: [u8; STATES],
    marks: [u8; STATES],
    count: usize,
}

// Finds the states that are reached. A function of its own, so that the walk's memory is let go when they are judged.
#[inline(never)]
fn find_reached(numbers: &[u64]) -> Reached
    ensures { MeantBy numbers.now (λ M. Reaches M result.marks result.order result.count) }
{
    let queue = visit::reach(numbers);
    let mut marks = [0u8; STATES];
    marks.copy_from_slice(&queue.known[..STATES]);
    Reached {
        order: queue.order,
        marks,
        count: queue.count,
    }
}

// The verdict of an opened table whose reached states are these. The summaries are found state by state, from those that
// are met last on: children mostly come before their parents. A function of its own too, so that its memory is not there while the walk's is.
#[inline(never)]
fn judge_reached(table: &OpenTable<'_, '_>, reached: &Reached) -> Result<(), No>
    ensures { MeantBy table.now.numbers.now (λ M. Reaches M reached.now.marks reached.now.order reached.now.count)
        → Means table.now (λ M. Judged M (verdict_of result)) }
{
    let mut left = [UNTOLD; STATES];
    empty_words::blanks(table.numbers, &reached.order, reached.count, &mut left);
    let mut right = left;
    end_summaries::settle(table, &reached.order, reached.count, Side::Left, &mut left);
    end_summaries::settle(
        table,
        &reached.order,
        reached.count,
        Side::Right,
        &mut right,
    );
    checks::first_fault(table, &reached.marks, &left, &right)
}

// The verdict of an opened table: earliest, or the first of 13 to 18 with its least place.
pub fn judge_opened(table: &OpenTable<'_, '_>) -> Result<(), No>
    ensures { Means table.now (λ M. Judged M (verdict_of result)) }
{
    judge_reached(table, &find_reached(table.numbers))
}
