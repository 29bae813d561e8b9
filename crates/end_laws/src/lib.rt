#![tactic(auto)]

// The ends of words as mathematics: this crate has definitions and laws, and no code.
