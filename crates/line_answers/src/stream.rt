// The lines of standard input, answered one after the other: the input is read in large pieces, and
// the answers to a piece wait in a large buffer and are written before the next piece is read. So
// memory is the same however long the input is, and no answer waits while the input pauses.
ghost use Rattle.std.specs.Prelude.{◌≡◌, length};

use crate::report::{COUNTS, Watch};
use long_line::LongLine;
use output::{Out, Streams};
use respond::{Question, Scratch};
use std::io::Stdin;
use std::time::Clock;

// Places for the bytes of a line: one more than the longest tree has, and as many as the characters of a piece give.
const PLACES: usize = layout::TREE + 1 + 32768;

// What the answers need, made once: the question, the line so far, who looks on, and memory.
#[derive(Drop)]
struct Engine<'a> {
    to: Streams,
    question: Question<'a>,
    line: LongLine,
    watch: Watch,
    tree: [u8; PLACES],
    scratch: Scratch<'a>,
    piece: [u8; 65536],
    counts: [u64; COUNTS],
    out: Out<'a>,
}

impl<'a> Engine<'a> {
    // Takes the first n bytes of the piece and writes the answers, and answers whether these could be
    // written. Where not, the line so far is dropped.
    fn take_and_write<R: Clock>(&mut self, rt: &R, n: usize) -> bool {
        self.line = pieces::take(
            self.question,
            self.line,
            output::front(&self.piece, n),
            &mut self.tree,
            &mut self.scratch,
            &mut self.out,
            &mut self.counts,
        );
        if !self.out.flush() {
            self.line = long_line::start();
            return false;
        }
        self.watch.step(rt, self.to, &self.counts);
        true
    }

    // Reads a piece of the input and takes it, and answers whether there may be more. Where the input
    // cannot be read, the line so far is dropped.
    fn read_some<R: Clock>(&mut self, rt: &R, from: &mut Stdin) -> bool {
        match console::read_some(from, &mut self.piece) {
            Ok(0) => false,
            Ok(n) => self.take_and_write(rt, n),
            Err(why) => {
                output::fail(self.to, b"standard input", &why);
                self.line = long_line::start();
                false
            }
        }
    }

    // Reads the whole input. A proved loop has to end, and nothing says that an input does, so the
    // turns are counted, up to a number that no run comes to.
    fn read_all<R: Clock>(&mut self, rt: &R, from: &mut Stdin) {
        for _ in 0..u64::MAX {
            if !self.read_some(rt, from) {
                return;
            }
        }
    }

    // Answers a last line without line feed, where there is one.
    fn answer_last(&mut self) {
        if !long_line::is_begun(self.line) {
            return;
        }
        pieces::answer(
            self.question,
            self.line,
            &self.tree,
            &mut self.scratch,
            &mut self.out,
            &mut self.counts,
        );
        self.out.flush();
    }
}

// Zeros, as many as the longest word of a tree has letters: a tree of 32,768 symbols is written with
// 65,537 words of the table, each of at most 32 letters.
fn long_room() -> [u8; 2097184]
    ensures { 2097184 ≡ length result }
{
    [0; 2097184]
}

// Answers each line of the input, and says at a terminal what became of them.
pub fn answer_all<R: Clock>(rt: &R, mut from: Stdin, to: Streams, question: Question) {
    let mut image = [0; layout::TREE];
    let mut plan = [0; layout::TREE];
    let mut room = long_room();
    let mut bytes = [0u8; 65536];
    let mut engine = Engine {
        to,
        question,
        line: long_line::start(),
        watch: Watch::new(rt, from, to),
        tree: [0; PLACES],
        scratch: Scratch {
            image: &mut image,
            plan: &mut plan,
            room: &mut room,
        },
        piece: [0; 65536],
        counts: [0; COUNTS],
        out: Out::new(to, &mut bytes),
    };
    engine.read_all(rt, &mut from);
    engine.answer_last();
    engine.watch.end(to, question.asked, &engine.counts);
}
