// The opened table: how many bytes and numbers are lent, total reads of them, and the leaves that read the head.
// Everything above reads an opened table through leaves: these, those of rule_leaves and those of word_leaves.
// None asks anything of the lent bytes and numbers: reads are clamped, and each contract speaks of every table that they mean.
#![tactic(auto)]

ghost use Rattle.std.specs.Prelude.{◌≡◌, ◌+◌, ◌<◌, ◌≤◌, length, get_or};
ghost use Rattle.layout.specs.Leaves.{word_at, behind_at};

pub use counts::{arity, rules, start, states, symbols, word_after, word_before};

mod counts;

// An opened table as it is lent: its bytes, which are its frames and what is behind them, and its numbers.
#[derive(Clone, Copy)]
pub struct OpenTable<'f, 'n> {
    pub frames: &'f [u8],
    pub numbers: &'n [u64],
}

// How many bytes and how many numbers a caller lends for an opened table. The bytes behind the
// longest table's frames let a word be copied in pieces of 32.
pub const FRAMES: usize = 16448;

pub const NUMBERS: usize = 4688;

// The limits of the specification, named once: a table text's bytes, its symbols, their arity, its states,
// its rules, a word's letters; a tree's bytes and its levels.
pub const TEXT: usize = 32768;

pub const SYMBOLS: usize = 64;

pub const ARITY: usize = 4;

pub const STATES: usize = 64;

pub const RULES: usize = 512;

pub const LETTERS: usize = 32;

pub const TREE: usize = 32768;

pub const LEVELS: usize = 64;

// The byte at `at`, and 0 past the end: a child's state, a word's length, a symbol's arity.
pub fn byte(frames: &[u8], at: usize) -> u8
    ensures { result ≡ get_or frames.now at 0 }
{
    if at < frames.len() { frames[at] } else { 0 }
}

// The number at `at`, and 0 past the end.
pub fn number(numbers: &[u64], at: usize) -> u64
    ensures { result ≡ get_or numbers.now at 0 }
{
    if at < numbers.len() { numbers[at] } else { 0 }
}

// The word whose length byte stands at `at`, as a stretch of the lent bytes.
pub fn stretch(frames: &[u8], at: usize) -> &[u8]
    ensures { (result.now ≡ word_at frames.now at) × (length result.now < 256) }
{
    let n = usize::from(byte(frames, at));
    if at < frames.len() {
        let from = at + 1;
        if n <= frames.len() - from {
            &frames[from..from + n]
        } else {
            &frames[from..]
        }
    } else {
        &frames[..0]
    }
}

// Where what follows the word at `at` stands.
pub fn behind(frames: &[u8], at: usize) -> usize
    requires { at < 65536 }
    ensures { (result ≡ behind_at frames.now at) × (result ≤ at + 256) }
{
    at + 1 + usize::from(byte(frames, at))
}
