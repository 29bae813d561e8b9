// What a person is told who asks for help, or starts a program with what it cannot use.
use output::Streams;
use std::env::{Env, FillError};
use std::io::Print;

// Writes two lines: what the program wants and answers, and where more is said. Where they cannot be
// written, there is nobody to tell.
pub fn tell<P: Print>(to: &P, usage: &[u8]) {
    let _ = to.write_all(usage);
    let _ = to.write_all(b"README.md explains the numbers of no, docs/TABLES.md the table text.\n");
}

// Whether argument i asks for help.
fn asks_help<R: Env>(rt: &R, i: usize) -> bool {
    let mut word = [0u8; 4096];
    match rt.arg(i, &mut word) {
        Ok(n) => matches!(output::front(&word, n), b"--help" | b"-h"),
        Err(_) => false,
    }
}

// Whether there is an argument i, however long.
fn is_given<R: Env>(rt: &R, i: usize) -> bool {
    let mut first = [0u8; 1];
    match rt.arg(i, &mut first) {
        Ok(_) => true,
        Err(FillError::TooLong) => true,
        Err(FillError::NotPresent) => false,
    }
}

// How many arguments the program was started with, its own name among them.
pub fn arg_count<R: Env>(rt: &R) -> usize {
    (0..usize::MAX)
        .find(|i| !is_given(rt, *i))
        .unwrap_or(usize::MAX)
}

// Whether the program was started with so many arguments. If not, or where help is asked for, says
// what the program wants.
pub fn started_with<R: Env>(rt: &R, to: Streams, count: usize, usage: &[u8]) -> bool {
    let given = arg_count(rt);
    if given == 2 && asks_help(rt, 1) {
        tell(&to.out, usage);
        return false;
    }
    if 0 < given && given - 1 == count {
        return true;
    }
    tell(&to.err, usage);
    false
}
