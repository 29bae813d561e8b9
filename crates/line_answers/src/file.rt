// The lines of standard input under the table whose text a file has, as the programs ask for them.
use crate::stream::answer_all;
use output::Streams;
use respond::{Asked, Question};
use std::env::Env;
use std::fs::Files;
use std::io::Stdin;
use std::time::Clock;

// Answers the input under the table of a text.
fn answer_under<R: Clock>(rt: &R, from: Stdin, to: Streams, asked: Asked, text: &[u8]) {
    let mut frames = [0u8; layout::FRAMES];
    let mut numbers = [0u64; layout::NUMBERS];
    let opening = table::open(text, &mut frames, &mut numbers);
    let question = Question {
        asked,
        opening,
        frames: &frames,
        numbers: &numbers,
    };
    answer_all(rt, from, to, question);
}

// Reads the table text from the file that argument i names, and answers.
pub fn answer_file<R: Env + Files + Clock>(
    rt: &R,
    from: Stdin,
    to: Streams,
    i: usize,
    asked: Asked,
    usage: &[u8],
) {
    // One byte more than a text may have, so that a longer one is seen to be too long.
    let mut text = [0u8; layout::TEXT + 1];
    let Some(n) = console::read_file(rt, to, i, usage, &mut text) else {
        return;
    };
    answer_under(rt, from, to, asked, output::front(&text, n));
}
