// Where the programs write: their answers on standard output, and what they say besides on standard error.
use crate::buffer::front;
use std::io::{Cursor, Error, Print, Stderr, Stdout, Write};

// The two streams that a program writes.
#[derive(Clone, Copy)]
pub struct Streams {
    pub out: Stdout,
    pub err: Stderr,
}

// Writes bytes to standard error. Where that fails, there is nobody to tell.
pub fn say(to: Streams, bytes: &[u8]) {
    let _ = Print::write_all(&to.err, bytes);
}

// Writes what an error says at the start of a room, as far as it reaches, and answers how many bytes that is.
fn spell(error: &Error, room: &mut [u8]) -> usize {
    let mut text = Cursor::new(room);
    let _ = write!(text, "{error}");
    text.position() as usize
}

// How many bytes stand before the first blank with a bracket behind it, or all: std gives an error's number there.
fn cause(text: &[u8]) -> usize {
    for i in 1..text.len() {
        if text[i - 1] == b' ' && text[i] == b'(' {
            return i - 1;
        }
    }
    text.len()
}

// Says on standard error what failed and why.
pub fn fail(to: Streams, what: &[u8], error: &Error) {
    let mut room = [0u8; 128];
    let n = spell(error, &mut room);
    let text = front(&room, n);
    say(to, what);
    say(to, b": ");
    say(to, front(text, cause(text)));
    say(to, b"\n");
}
