#![tactic(auto)]

// The machine as mathematics: this crate has definitions and laws, and no code.
