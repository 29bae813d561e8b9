// The least rule with a word that can be pushed to the left of the state before it.
ghost use Rattle.std.specs.Prelude.{◌≡◌, false, List, ℕ, ◌<◌, length};
ghost use Rattle.std.proofs.Math.ListN.{get_elem?};
ghost use Rattle.words.specs.Word.{Word};
ghost use Rattle.machine.specs.Machine.{Child, Row, Table};
ghost use Rattle.text.specs.Limits.{rows_most};
ghost use Rattle.end_laws.specs.Ends.{stuck, free};
ghost use Rattle.end_laws.specs.Companion.{least, free_row};
ghost use Rattle.layout.specs.Layout.{Opened};
ghost use Rattle.layout.specs.Lent.{Means};
ghost use Rattle.layout.specs.Leaves.{RowAt, Spot};
ghost use Rattle.summary.specs.Codes.{decode, K, Firm};
ghost use Rattle.checks.specs.Checks.{place_of};

use layout::{NUMBERS, OpenTable, rules};
use rule_leaves::laid_at;
use summary::{Summary, kept};
use word_leaves::{letter_at, letters_at, spot_past, state_past};

// Whether the word at a spot, which has n letters, can be pushed to the left of a state with this summary.
// Mostly the summary alone says no, so the word is read last.
fn stuck_at(frames: &[u8], p: usize, n: usize, x: Summary) -> bool
    ensures { (u : Word) (cs : List Child) → Spot frames.now u cs p → n ≡ length u → result ≡ stuck (decode x) u }
{
    x.narrow() && n != 0 && x.stuck_by(letter_at(frames, p, 0))
}

// Whether no word of rule number i can be pushed to the left of the state before it.
fn free_rule(table: &OpenTable<'_, '_>, i: usize, left: &[Summary]) -> bool
    requires { i < rows_most }
    ensures { (M : Table) (row : Row) → Opened table.now.frames.now table.now.numbers.now M → RowAt M i row
        → result ≡ free (K left.now) row.rule.rest }
{
    let rule = laid_at(table.numbers, i);
    let mut p = rule.spot;
    let mut n = letters_at(table.frames, p);
    for _child in 0..rule.kids {
        let q = state_past(table.frames, p, n);
        p = spot_past(p, n);
        n = letters_at(table.frames, p);
        if stuck_at(table.frames, p, n, kept(left, q)) {
            return false;
        }
    }
    true
}

// Whether some word can be pushed to the left of some state.
fn some_narrow(left: &[Summary]) -> bool
    ensures { result ≡ false → (q : ℕ) → Firm (K left.now q) }
{
    left.iter().any(|x| x.narrow())
}

// The least rule with a word that can be pushed to the left of the state before it.
pub fn least_rule(table: &OpenTable<'_, '_>, left: &[Summary]) -> Option<usize>
    ensures { Means table.now (λ M. place_of result
        ≡ least (λ i. free_row (K left.now) (get_elem? M.rows i)) (length M.rows) 0) }
{
    if !some_narrow(left) {
        return None;
    }
    // Reading asks how many numbers there are: it is told once here, so that no read below asks again.
    let Ok(numbers) = <&[u64; NUMBERS]>::try_from(table.numbers) else {
        return None;
    };
    let table = &OpenTable {
        frames: table.frames,
        numbers,
    };
    for i in 0..rules(numbers) {
        if !free_rule(table, i, left) {
            return Some(i);
        }
    }
    None
}
