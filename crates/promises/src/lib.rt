#![tactic(auto)]

// What the public calls answer, as mathematics: this crate has definitions and laws, and no code.
