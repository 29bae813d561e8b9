// The lines of standard input, each answered with one line on standard output, and at a terminal what became of them.
#![tactic(auto)]

mod file;
mod report;
mod stream;

pub use file::answer_file;
pub use stream::answer_all;
