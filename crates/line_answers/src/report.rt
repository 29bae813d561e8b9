// What a person at a terminal is told on standard error: how many lines are done while the input is
// long, and at the end what became of them.
use output::{Out, Streams};
use respond::{Asked, STRANGE};
use std::io::{IsTerminal, Stdin};
use std::time::Clock;

// How many counts there are: of what was asked for, of each number of no, and of lines that are not hexadecimal.
// They stand in one array, since a refusal's number is its place there, and a struct would count each by the same number inside.
pub const COUNTS: usize = STRANGE + 1;

// Whether standard error is a terminal, whether progress is shown there (not where answers are or
// lines are typed at a terminal), whether any was, and when last.
#[derive(Clone, Copy)]
pub struct Watch {
    on: bool,
    moving: bool,
    shown: bool,
    last: u64,
}

// The time in seconds, or always the same where there is no clock.
fn now<R: Clock>(rt: &R) -> u64 {
    match rt.since_1970() {
        Ok(time) => time.as_secs(),
        Err(_) => 0,
    }
}

// Writes how many lines are done, over what was written last.
fn progress(to: Streams, counts: &[u64]) {
    let mut bytes = [0u8; 4096];
    let mut out = Out::new(to, &mut bytes);
    out.put(b'\r');
    out.put_number(line_counts::total(counts));
    out.put_all(b" lines");
    output::say(to, out.waiting());
}

// The name of what was asked for.
fn name_of(asked: Asked) -> &'static [u8] {
    match asked {
        Asked::Word | Asked::RecordWord => b"words",
        Asked::RecordTree => b"trees",
        Asked::TreeRecord => b"records",
    }
}

// Writes what became of all lines, over the progress where that was shown.
fn summary(to: Streams, asked: Asked, shown: bool, counts: &[u64; COUNTS]) {
    if shown {
        output::say(to, b"\r");
    }
    let mut bytes = [0u8; 4096];
    let mut out = Out::new(to, &mut bytes);
    let lines = line_counts::total(counts);
    let refused = &counts[1..STRANGE];
    line_counts::put_counts(
        lines,
        name_of(asked),
        counts[0],
        refused,
        counts[STRANGE],
        &mut out,
    );
    output::say(to, out.waiting());
}

impl Watch {
    // Looks who is there.
    pub fn new<R: Clock>(rt: &R, from: Stdin, to: Streams) -> Watch {
        let on = to.err.is_terminal();
        let typed = from.is_terminal();
        let read = to.out.is_terminal();
        Watch {
            on,
            moving: on && !typed && !read,
            shown: false,
            last: now(rt),
        }
    }

    // Shows progress where there is somebody to see it, at most once a second.
    pub fn step<R: Clock>(&mut self, rt: &R, to: Streams, counts: &[u64]) {
        if !self.moving {
            return;
        }
        let time = now(rt);
        if time == self.last {
            return;
        }
        progress(to, counts);
        self.shown = true;
        self.last = time;
    }

    // Says at a terminal what became of all lines.
    pub fn end(&self, to: Streams, asked: Asked, counts: &[u64; COUNTS]) {
        if self.on {
            summary(to, asked, self.shown, counts);
        }
    }
}
