// The checks 13 to 18, on the states that are reached and the summaries at both sides: the first that some place does not pass.
#![tactic(auto)]

ghost use Rattle.std.specs.Prelude.{◌≡◌, not, false, ◌<◌, get_or};
ghost use Rattle.end_laws.specs.Ends.{lives, clean, stuck};
ghost use Rattle.end_laws.specs.Companion.{least, judge_by};
ghost use Rattle.layout.specs.Lent.{Means};
ghost use Rattle.summary.specs.Codes.{K};
ghost use Rattle.checks.specs.Checks.{place_of, IsLeast, checked, verdict_by, all_checks};

use crate::rules::least_rule;
use layout::{OpenTable, byte, start, states, word_after};
use summary::{Summary, kept};
use words::No;

mod rules;

// The least state that is not reached.
fn unreached(count: usize, marks: &[u8]) -> Option<usize>
    ensures { IsLeast (λ q. get_or marks.now q 0 ≡ 0) count result }
{
    (0..count).find(|q| byte(marks, *q) == 0)
}

// The least state of which no word is known.
fn wordless(count: usize, left: &[Summary]) -> Option<usize>
    ensures { IsLeast (λ q. lives (K left.now q) ≡ false) count result }
{
    // A `find` over the range was tried: its proof does not close for a test that is no comparison of numbers.
    for q in 0..count {
        if !kept(left, q).lives() {
            return Some(q);
        }
    }
    None
}

// The least state whose words have a common prefix, or suffix: by their ends at that side, which are one letter.
fn unclean(count: usize, values: &[Summary]) -> Option<usize>
    ensures { IsLeast (λ q. clean (K values.now q) ≡ false) count result }
{
    // A `find` over the range was tried: its proof does not close for a test that is no comparison of numbers.
    for q in 0..count {
        if !kept(values, q).clean() {
            return Some(q);
        }
    }
    None
}

// The initial rule, if its last word can be pushed to the left of its state.
fn start_fault(table: &OpenTable<'_, '_>, left: &[Summary]) -> Option<usize>
    ensures { Means table.now (λ M. place_of result
        ≡ least (λ p. not (stuck (K left.now M.start) M.after)) 1 0) }
{
    let word = word_after(table);
    if word.len() == 0 {
        return None;
    }
    let stuck = kept(left, start(table.numbers)).stuck_by(word[0]);
    stuck.then_some(0)
}

// A check is passed where no place fails it.
fn passed(number: u8, least: Option<usize>) -> Result<(), No>
    ensures { result ≡ checked number least }
{
    match least {
        Some(place) => Err(No { number, place }),
        None => Ok(()),
    }
}

// The checks in number order: the first that some place does not pass, with the least such place.
pub fn first_fault(
    table: &OpenTable<'_, '_>,
    marks: &[u8],
    left: &[Summary],
    right: &[Summary],
) -> Result<(), No>
    ensures { Means table.now (λ M. verdict_by result
        ≡ judge_by (all_checks M marks.now left.now right.now)) }
{
    let count = states(table.numbers);
    passed(13, unreached(count, marks))?;
    passed(14, wordless(count, left))?;
    passed(15, unclean(count, left))?;
    passed(16, unclean(count, right))?;
    passed(17, start_fault(table, left))?;
    passed(18, least_rule(table, left))
}
