// Compares the table texts of two files: `same`, `different`, or `no`, the table, the number and the
// place.
#![tactic(auto)]

use comparison::TableNo;
use output::Streams;
use std::env::Env;
use std::fs::Files;

fn answer(to: Streams, first: &[u8], second: &[u8]) {
    match fadurinko::compare(first, second) {
        Ok(true) => {
            output::print(to, b"same\n");
        }
        Ok(false) => {
            output::print(to, b"different\n");
        }
        Err(TableNo { table, refusal }) => {
            console::print_no(
                to,
                &[
                    u64::from(table),
                    u64::from(refusal.number),
                    refusal.place as u64,
                ],
            );
        }
    }
}

// Reads the two files and answers.
fn compare_files<R: Env + Files>(rt: &R, to: Streams, usage: &[u8]) {
    // One byte more than a text may have, so that a longer one is seen to be too long.
    let mut first = [0u8; layout::TEXT + 1];
    let Some(n) = console::read_file(rt, to, 1, usage, &mut first) else {
        return;
    };
    let mut second = [0u8; layout::TEXT + 1];
    let Some(m) = console::read_file(rt, to, 2, usage, &mut second) else {
        return;
    };
    answer(to, output::front(&first, n), output::front(&second, m));
}

fn main(rt: HostRuntime) {
    let to = Streams {
        out: rt.stdout(),
        err: rt.stderr(),
    };
    let usage =
        b"usage: compare FILE1 FILE2: two table texts; answers same, different or no TABLE NUMBER PLACE\n";
    if console::started_with(&rt, to, 2, usage) {
        compare_files(&rt, to, usage);
    }
}
