// Opening a table text: any bytes come to an end with an opened table or one refusal and its place.
#![tactic(auto)]

ghost use Rattle.std.specs.Prelude.{◌≡◌, ◌++◌, ◌+◌, ◌-◌, ◌/◌, ◌≤◌, length, take, drop};
ghost use Rattle.text.specs.Reading.{read_table};
ghost use Rattle.table.specs.Opening.{Opens, Unchanged};

use head_frames::Note;
use words::No;

// Reads a table text, any bytes, into lent bytes and numbers, which become the opened table. Where
// the text is refused, what was read before the fault stays in the bytes.
// Never inlined, so that what it keeps on the stack is gone before a call on the opened table is made.
#[inline(never)]
pub fn read(
    text: &[u8],
    bytes: &mut [u8; layout::FRAMES],
    numbers: &mut [u64; layout::NUMBERS],
) -> Result<(), No>
    ensures { Opens bytes.new numbers.new (read_table text.now) result }
{
    let mut rules = [Note { row: 0, entry: 0 }; layout::RULES];
    let head = table_lines::read_text(text, bytes, &mut rules)?;
    table_numbers::fill(numbers, head, &rules);
    Ok(())
}

// How many bytes the frames of a table have whose text has n: two digits each, and a line feed for
// each symbol, for each rule, for the initial rule and for the end.
fn frames_length(n: usize, symbols: usize, rules: usize) -> usize
    requires { symbols + rules + 2 ≤ n }
    ensures { result ≡ (n - (symbols + rules + 2)) / 2 }
{
    (n - (symbols + rules + 2)) / 2
}

// Opens a table text: any bytes. The lent bytes and numbers become the opened table, and what it
// does not use of them is as it was; where the text is refused all of them are.
pub fn open(
    text: &[u8],
    bytes: &mut [u8; layout::FRAMES],
    numbers: &mut [u64; layout::NUMBERS],
) -> Result<(), No>
    ensures opens { Opens bytes.new numbers.new (read_table text.now) result }
    ensures unchanged { Unchanged bytes.old numbers.old bytes.new numbers.new (read_table text.now) }
{
    let mut own = [0u8; layout::FRAMES];
    let mut rules = [Note { row: 0, entry: 0 }; layout::RULES];
    let head = table_lines::read_text(text, &mut own, &mut rules)?;
    let n = frames_length(text.len(), head.symbols, head.rules);
    bytes[..n].copy_from_slice(&own[..n]);
    table_numbers::fill(numbers, head, &rules);
    Ok(())
}
