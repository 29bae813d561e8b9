#![tactic(auto)]

// A no: its number and its place. Every refusal, of a text, of a tree, of a room or of a table, is one.
// It is a number and no enum, since definitions, the C interface and what the programs print give it.
#[derive(Clone, Copy)]
pub struct No {
    pub number: u8,
    pub place: usize,
}
