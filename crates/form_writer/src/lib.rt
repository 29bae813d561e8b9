// The form of an opened table, by the states' first-visit numbers: its text, written line by line.
// None of these functions asks anything of the opened table: each promise speaks of every table that the lent bytes and numbers mean.
#![tactic(auto)]

ghost use Rattle.form_writer.specs.Lines.{FormTextWritten};

use crate::lines::{put_initial, put_symbols};
use digits::Pen;
use form_numbers::most;
use form_rows::put_states;
use layout::OpenTable;

mod lines;

// Writes the form's text, where the first n states of `order` are the states by first visit, and `names` has the number of each state.
// Nothing is asked of the length of `order`, so n stands beside it.
pub fn write(
    table: &OpenTable<'_, '_>,
    order: &[u8],
    n: usize,
    names: &[u8],
    room: &mut [u8],
) -> usize
    ensures { FormTextWritten table.now.frames.now table.now.numbers.now order.now names.now n
        room.old room.new result }
{
    let states = most(n);
    let mut pen = Pen::new(room);
    put_symbols(&mut pen, table);
    put_initial(&mut pen, table, states);
    put_states(&mut pen, table, order, states, names);
    pen.put_byte(4);
    pen.put(10);
    pen.at
}
