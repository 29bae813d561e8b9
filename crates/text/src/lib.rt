#![tactic(auto)]

// Table texts as mathematics: this crate has definitions and laws, and no code.
