// The lines of the form's rules: each rule's bytes with the states' new numbers, by state.
#![tactic(auto)]

ghost use Rattle.std.specs.Prelude.{◌≡◌, ◌+◌, ◌<◌, ◌≤◌, length};
ghost use Rattle.text.specs.Limits.{states_most, rows_most};
ghost use Rattle.form_rows.specs.Rows.{Renamed, RowWritten, RuleWritten, RulesWritten, StatesWritten};

use digits::{Pen, narrow};
use layout::{OpenTable, byte};
use rule_leaves::{rules_of, symbol_of};
use word_leaves::rule_text;

// Writes the numbers of the children's states over the states, where the digits of a rule's bytes stand at `at`.
fn put_numbers(pen: &mut Pen, text: &[u8], names: &[u8], at: usize)
    requires { (length text.now ≤ 270) × (at + 1000 < 1000000000) }
    ensures same_room { pen.new.room.ghost_name ≡ pen.old.room.ghost_name }
    ensures renamed { Renamed text.now names.now at pen.old.room.now pen.new.room.now }
    ensures stays { pen.new.at ≡ pen.old.at }
{
    let mut pos = 1 + usize::from(byte(text, 0));
    // Each child says how long it is, so no range or iterator has the places.
    while pos < text.len() {
        let state = usize::from(text[pos]);
        pen.put_byte_at(at + 2 * pos, byte(names, state));
        pos += 2 + usize::from(byte(text, pos + 1));
    }
}

// Writes the line of state number n and symbol f: the rule's bytes whole, and then the numbers over its children's states.
fn put_row(pen: &mut Pen, text: &[u8], n: u8, f: u8, names: &[u8])
    requires { (length text.now ≤ 270) × (pen.old.at + 2000 < 1000000000) }
    ensures same_room { pen.new.room.ghost_name ≡ pen.old.room.ghost_name }
    ensures upper_bound { pen.new.at ≤ pen.old.at + 547 }
    ensures row_written { RowWritten text.now n f names.now pen.old.room.now pen.old.at pen.new.room.now pen.new.at }
{
    pen.put_byte(3);
    pen.put_byte(n);
    pen.put_byte(f);
    let rule = pen.at;
    pen.put_hex(text);
    put_numbers(pen, text, names, rule);
    pen.put(10);
}

// Writes the line of rule number i, under state number n.
fn put_rule(pen: &mut Pen, table: &OpenTable<'_, '_>, i: usize, n: u8, names: &[u8])
    requires { (i < rows_most) × (pen.old.at + 2000 < 1000000000) }
    ensures same_room { pen.new.room.ghost_name ≡ pen.old.room.ghost_name }
    ensures upper_bound { pen.new.at ≤ pen.old.at + 547 }
    ensures rule_written { RuleWritten table.now.frames.now table.now.numbers.now i n names.now
        pen.old.room.now pen.old.at pen.new.room.now pen.new.at }
{
    let f = narrow(symbol_of(table.numbers, i));
    put_row(pen, rule_text(table, i), n, f, names);
}

// Writes the lines of state q, under number n.
fn put_rules(pen: &mut Pen, table: &OpenTable<'_, '_>, q: usize, n: u8, names: &[u8])
    requires { pen.old.at + 400000 < 1000000000 }
    ensures same_room { pen.new.room.ghost_name ≡ pen.old.room.ghost_name }
    ensures upper_bound { pen.new.at ≤ pen.old.at + 300000 }
    ensures rules_written { RulesWritten table.now.frames.now table.now.numbers.now q n names.now
        pen.old.room.now pen.old.at pen.new.room.now pen.new.at }
{
    let own = rules_of(table.numbers, q);
    for i in own.from..own.to {
        put_rule(pen, table, i, n, names);
    }
}

// Writes the lines of the first n states of `order`, each under its place there.
// Nothing is asked of the length of `order`, so n stands beside it.
pub fn put_states(pen: &mut Pen, table: &OpenTable<'_, '_>, order: &[u8], n: usize, names: &[u8])
    requires { (n ≤ states_most) × (pen.old.at + 20000000 < 1000000000) }
    ensures same_room { pen.new.room.ghost_name ≡ pen.old.room.ghost_name }
    ensures upper_bound { pen.new.at ≤ pen.old.at + 19200000 }
    ensures states_written { StatesWritten table.now.frames.now table.now.numbers.now order.now n names.now
        pen.old.room.now pen.old.at pen.new.room.now pen.new.at }
{
    for i in 0..n {
        let q = usize::from(byte(order, i));
        put_rules(pen, table, q, narrow(i), names);
    }
}
