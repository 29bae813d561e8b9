// The lines of the form before the rules: the symbols, the initial rule.
ghost use Rattle.std.specs.Prelude.{◌≡◌, ◌+◌, ◌<◌, ◌≤◌};
ghost use Rattle.form_writer.specs.Lines.{SymbolsWritten, InitialWritten};

use digits::{Pen, narrow};
use layout::{OpenTable, arity, symbols, word_after, word_before};

// Writes the lines of the symbols.
pub fn put_symbols(pen: &mut Pen, table: &OpenTable<'_, '_>)
    requires { pen.old.at + 1000 < 1000000000 }
    ensures same_room { pen.new.room.ghost_name ≡ pen.old.room.ghost_name }
    ensures upper_bound { pen.new.at ≤ pen.old.at + 400 }
    ensures symbols_written { SymbolsWritten table.now.frames.now table.now.numbers.now pen.old.room.now pen.old.at pen.new.room.now pen.new.at }
{
    for k in 0..symbols(table.numbers) {
        pen.put_byte(1);
        pen.put_byte(narrow(arity(table.frames, k)));
        pen.put(10);
    }
}

// Writes the line of the initial rule: so many states, its words, and between them the initial state, which has number 0.
pub fn put_initial(pen: &mut Pen, table: &OpenTable<'_, '_>, states: usize)
    requires { (states < 256) × (pen.old.at + 2000 < 1000000000) }
    ensures same_room { pen.new.room.ghost_name ≡ pen.old.room.ghost_name }
    ensures upper_bound { pen.new.at ≤ pen.old.at + 1100 }
    ensures initial_written { InitialWritten table.now.frames.now table.now.numbers.now states
        pen.old.room.now pen.old.at pen.new.room.now pen.new.at }
{
    pen.put_byte(2);
    pen.put_byte(narrow(states));
    pen.put_text(word_before(table));
    pen.put_byte(0);
    pen.put_text(word_after(table));
    pen.put(10);
}
