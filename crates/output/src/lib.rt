#![tactic(auto)]

mod buffer;
mod hex;
mod streams;

pub use buffer::{Out, front, print};
pub use streams::{Streams, fail, say};
