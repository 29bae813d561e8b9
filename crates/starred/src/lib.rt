#![tactic(auto)]

// The starred cases of the specification: this crate has their table and one theorem, and no code.
