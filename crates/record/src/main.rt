// Nested records under one table. `record MODE TABLEFILE` reads the table text from the file and
// hexadecimal lines from standard input, and answers each with one line. MODE is `word` for the
// words of records, `tree` for their trees, or `back` for the records of trees; the answers are
// `word LENGTH TERMS HEX`, `tree HEX`, `record HEX`, `no NUMBER PLACE` or `not hex`.
#![tactic(auto)]

use output::Streams;
use respond::Asked;
use std::env::Env;
use std::fs::Files;
use std::io::Stdin;
use std::time::Clock;

// What the mode with this name asks for, where there is one.
fn mode_of(name: &[u8]) -> Option<Asked> {
    match name {
        b"word" => Some(Asked::RecordWord),
        b"tree" => Some(Asked::RecordTree),
        b"back" => Some(Asked::TreeRecord),
        _ => None,
    }
}

// Says on standard error that there is no such mode, which there are and, in the next line, what the program wants.
fn tell_modes(to: Streams, name: &[u8], usage: &[u8]) {
    output::say(to, name);
    output::say(to, b": not a mode; there are word, tree and back\n");
    output::say(to, usage);
}

// Answers in the mode with this name, or says which modes there are.
fn answer_named<R: Env + Files + Clock>(
    rt: &R,
    from: Stdin,
    to: Streams,
    name: &[u8],
    usage: &[u8],
) {
    let Some(asked) = mode_of(name) else {
        tell_modes(to, name, usage);
        return;
    };
    line_answers::answer_file(rt, from, to, 2, asked, usage);
}

// Answers in the mode that the first argument names.
fn answer_mode<R: Env + Files + Clock>(rt: &R, from: Stdin, to: Streams, usage: &[u8]) {
    let mut name = [0u8; 4096];
    let n = rt.arg(1, &mut name).unwrap_or(0);
    answer_named(rt, from, to, output::front(&name, n), usage);
}

fn main(rt: HostRuntime) {
    let to = Streams {
        out: rt.stdout(),
        err: rt.stderr(),
    };
    let usage =
        b"usage: record MODE TABLEFILE: MODE word, tree or back; records (back: trees) in hexadecimal; answers word, tree, record, no NUMBER PLACE, not hex\n";
    if console::started_with(&rt, to, 2, usage) {
        answer_mode(&rt, rt.stdin(), to, usage);
    }
}
