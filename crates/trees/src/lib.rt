#![tactic(auto)]

// Tree bytes as mathematics: this crate has definitions and laws, and no code.
