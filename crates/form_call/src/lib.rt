// The form of a table text: it is judged, and formed where it is earliest.
#![tactic(auto)]

ghost use Rattle.machine.specs.Machine.{Table};
ghost use Rattle.machine.specs.Earliest.{Earliest};
ghost use Rattle.layout.specs.Lent.{Means};
ghost use Rattle.form_call.specs.Formed.{FormAnswered, FormInto};

use layout::OpenTable;
use words::No;

// The form of an opened earliest table, written to the front of the room: its length, or 12 with the
// length needed where the room is too short.
pub fn form_opened(table: &OpenTable<'_, '_>, room: &mut [u8]) -> Result<usize, No>
    ensures { Means table.now (λ M. Earliest M
        → FormInto M room.old room.new result) }
{
    let mut rep = [0u8; layout::STATES];
    classes::part(table, &mut rep);
    let mut order = [0u8; layout::STATES];
    let mut names = [0u8; layout::STATES];
    let n = form_numbers::number(table.numbers, &rep, &mut order, &mut names);
    let length = form_length::length(table, &order, n);
    if room.len() < length {
        return Err(No {
            number: 12,
            place: length,
        });
    }
    form_writer::write(table, &order, n, &names, room);
    Ok(length)
}

// The form of a table text: any bytes and any room.
pub fn form(text: &[u8], room: &mut [u8]) -> Result<usize, No>
    ensures { FormAnswered text.now room.old room.new result }
{
    let mut frames = [0u8; layout::FRAMES];
    let mut numbers = [0u64; layout::NUMBERS];
    judge_call::judge_into(text, &mut frames, &mut numbers)?;
    let table = OpenTable {
        frames: &frames,
        numbers: &numbers,
    };
    form_opened(&table, room)
}
