// The three demands as theorems about texts: this crate has laws, and no code.
#![tactic(auto)]
