// A rule's own bytes, as the table text has them, and how long rules are in that text.
ghost use Rattle.std.specs.Prelude.{◌≡◌, ℕ, ◌<◌, ◌≤◌, List, length};
ghost use Rattle.std.proofs.Math.Seq.{slice};
ghost use Rattle.text.specs.Limits.{rows_most};
ghost use Rattle.machine.specs.Machine.{Row, Table};
ghost use Rattle.text.specs.Writing.{row_lines};
ghost use Rattle.layout.specs.Layout.{Opened, rule_text, MeantBy};
ghost use Rattle.layout.specs.Leaves.{RowAt, RowMeant};

use layout::OpenTable;
use rule_leaves::{kept_of, kids_in, letters_in, spot_of};

// How many bytes rule number i has: its first word, and then for each child its state and a word.
fn text_length(numbers: &[u64], i: usize) -> usize
    requires { i < rows_most }
    ensures upper_bound { result ≤ 270 }
    ensures row_meant { RowMeant numbers.now i (λ r. result ≡ length (rule_text r.rule)) }
{
    let kept = kept_of(numbers, i);
    1 + 2 * kids_in(kept) + letters_in(kept)
}

// The bytes of rule number i. Where numbers that mean no table tell bytes that are not there, there are none.
pub fn rule_text<'f>(table: &OpenTable<'f, '_>, i: usize) -> &'f [u8]
    requires { i < rows_most }
    ensures result_len_bound { length result.now ≤ 270 }
    ensures result_value { (M : Table) (r : Row) → Opened table.now.frames.now table.now.numbers.now M → RowAt M i r → result.now ≡ rule_text r.rule }
{
    let from = spot_of(table.numbers, i);
    let end = from + text_length(table.numbers, i);
    if table.frames.len() < end {
        return &table.frames[..0];
    }
    &table.frames[from..end]
}

// How long the lines of the rules are in the table's text that are numbered from `from` on and before `to`.
pub fn lines_length(numbers: &[u64], from: usize, to: usize) -> usize
    requires { to ≤ rows_most }
    ensures upper_bound { result ≤ 40000 }
    ensures meant_by { MeantBy numbers.now (λ M. from ≤ to → to ≤ length M.rows
        → result ≡ length (row_lines (slice from to M.rows))) }
{
    if to <= from {
        return 0;
    }
    let first = spot_of(numbers, from);
    let last = spot_of(numbers, to - 1) + text_length(numbers, to - 1) + 3;
    2 * last.saturating_sub(first) + (to - from)
}
