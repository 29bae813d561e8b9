// Two opened earliest tables compared: their forms are written, and told to be one or not.
// Nothing is asked of the lent bytes: each contract speaks of every two tables that they mean.
#![tactic(auto)]

ghost use Rattle.std.specs.Prelude.{◌≡◌, List, ℕ};
ghost use Rattle.words.specs.Told.{Told};
ghost use Rattle.machine.specs.Machine.{Table};
ghost use Rattle.machine.specs.Earliest.{Earliest};
ghost use Rattle.layout.specs.Layout.{Opened};
ghost use Rattle.comparison.specs.Parts.{BeginsWith};
ghost use Rattle.comparison.specs.Answers.{comparison_of, SameForm, ComparedTables};

use layout::OpenTable;
use words::No;

// A refusal, with the table that it is about: 1, 2, or 0 for number 19, which is about both. The C interface gives that number.
#[derive(Clone, Copy)]
pub struct TableNo {
    pub table: u8,
    pub refusal: No,
}

// Whether the first n bytes of one are the first m bytes of the other.
fn same_fronts(first: &[u8; layout::TEXT], n: usize, second: &[u8; layout::TEXT], m: usize) -> bool
    ensures { (x y : List ℕ) → BeginsWith first.now n x → BeginsWith second.now m y → Told (x ≡ y) result }
{
    n <= layout::TEXT && m <= layout::TEXT && first[..n] == second[..m]
}

// Whether two opened earliest tables have one form: their texts are written and compared.
fn same_forms(first: &OpenTable<'_, '_>, second: &OpenTable<'_, '_>) -> bool
    ensures { (M N : Table) → Opened first.now.frames.now first.now.numbers.now M → Earliest M
        → Opened second.now.frames.now second.now.numbers.now N → Earliest N → SameForm M N result }
{
    let mut one = [0u8; layout::TEXT];
    let mut two = [0u8; layout::TEXT];
    let Ok(n) = form_call::form_opened(first, &mut one) else {
        return false;
    };
    let Ok(m) = form_call::form_opened(second, &mut two) else {
        return false;
    };
    same_fronts(&one, n, &two, m)
}

// Whether two opened earliest tables are the same: 19 where their symbol lists part; else whether their forms agree.
pub fn compare_opened(
    first: &OpenTable<'_, '_>,
    second: &OpenTable<'_, '_>,
) -> Result<bool, TableNo>
    ensures { (M N : Table) → Opened first.now.frames.now first.now.numbers.now M → Earliest M
        → Opened second.now.frames.now second.now.numbers.now N → Earliest N → ComparedTables M N (comparison_of result) }
{
    let same = same_forms(first, second);
    let parted = same_symbols::symbols_part(first, second);
    match parted {
        Some(place) => Err(TableNo {
            table: 0,
            refusal: No { number: 19, place },
        }),
        None => Ok(same),
    }
}
