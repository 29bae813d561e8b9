// The summary of a rule's words at an end, where the states have summaries: its words and its children's summaries in turn.
// Nothing is asked of the lent bytes and numbers: each contract speaks of every table that they mean.
#![tactic(auto)]

ghost use Rattle.std.specs.Prelude.{◌≡◌, List, ◌<◌, length};
ghost use Rattle.words.specs.Word.{Word};
ghost use Rattle.machine.specs.Machine.{Child, Row, Table};
ghost use Rattle.text.specs.Limits.{rows_most};
ghost use Rattle.end_laws.specs.Ends.{end, alone, beside, value};
ghost use Rattle.layout.specs.Layout.{Opened};
ghost use Rattle.layout.specs.Leaves.{RowAt, Spot};
ghost use Rattle.summary.specs.Codes.{side_of, decode, K};

use layout::{OpenTable, STATES};
use rule_leaves::laid_at;
use summary::{EMPTY, Side, Summary, UNTOLD};
use word_leaves::{letter_at, letters_at, spot_past, state_past};

// The summary of the word at a spot, which has n letters and at least one, seen from a side: its first or its last letter.
fn end_at(frames: &[u8], p: usize, n: usize, side: Side) -> Summary
    requires { (0 < n) × (n < 256) }
    ensures { (u : Word) (cs : List Child) → Spot frames.now u cs p → n ≡ length u → decode result ≡ alone (end (side_of side) u) }
{
    let k = match side {
        Side::Left => 0,
        Side::Right => n - 1,
    };
    Summary::lettered(letter_at(frames, p, k))
}

// The summary of that word, which may be empty.
fn alone_at(frames: &[u8], p: usize, n: usize, side: Side) -> Summary
    requires { n < 256 }
    ensures { (u : Word) (cs : List Child) → Spot frames.now u cs p → n ≡ length u → decode result ≡ alone (end (side_of side) u) }
{
    if n == 0 {
        return EMPTY;
    }
    end_at(frames, p, n, side)
}

// The summary x of a rule's beginning, with that word behind it. An empty word changes nothing.
fn with_word(x: Summary, frames: &[u8], p: usize, n: usize, side: Side) -> Summary
    requires { n < 256 }
    ensures { (u : Word) (cs : List Child) → Spot frames.now u cs p → n ≡ length u
        → decode result ≡ beside (side_of side) (decode x) (alone (end (side_of side) u)) }
{
    if n == 0 {
        return x;
    }
    x.next_to(end_at(frames, p, n, side), side)
}

// The summary of the words of rule number i. Once no word is known, none will be.
pub fn rule_value(
    table: &OpenTable<'_, '_>,
    i: usize,
    side: Side,
    values: &[Summary; STATES],
) -> Summary
    requires { i < rows_most }
    ensures { (M : Table) (row : Row) → Opened table.now.frames.now table.now.numbers.now M → RowAt M i row
        → decode result ≡ value (side_of side) (K values.now) row.rule }
{
    let rule = laid_at(table.numbers, i);
    let mut p = rule.spot;
    let mut n = letters_at(table.frames, p);
    let mut x = alone_at(table.frames, p, n, side);
    for _child in 0..rule.kids {
        if x == UNTOLD {
            return UNTOLD;
        }
        let y = x.next_to(values[state_past(table.frames, p, n)], side);
        p = spot_past(p, n);
        n = letters_at(table.frames, p);
        x = with_word(y, table.frames, p, n, side);
    }
    x
}
