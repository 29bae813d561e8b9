// The words of many trees under one table. `word TABLEFILE` reads the table text from the file and
// trees from standard input, one a line in lowercase hexadecimal, and answers each with one line:
// `word LENGTH TERMS HEX`, `no NUMBER PLACE` or `not hex`.
#![tactic(auto)]

use output::Streams;
use respond::Asked;

fn main(rt: HostRuntime) {
    let to = Streams {
        out: rt.stdout(),
        err: rt.stderr(),
    };
    let usage =
        b"usage: word TABLEFILE: trees on standard input, one a line in hexadecimal; answers word LENGTH TERMS HEX, no NUMBER PLACE or not hex\n";
    if console::started_with(&rt, to, 1, usage) {
        line_answers::answer_file(&rt, rt.stdin(), to, 1, Asked::Word, usage);
    }
}
