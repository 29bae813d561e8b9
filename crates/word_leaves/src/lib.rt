// The words of an opened table's rules: going through them from spot to spot, copying them, a rule's own bytes.
// None asks anything of the lent bytes: reads are clamped, and each contract speaks of every word that stands there.
#![tactic(auto)]

pub use copy::{next_spot_full, put_word};
pub use spot::{next_spot, word_at};
pub use stride::{letter_at, letters_at, spot_past, state_past};
pub use texts::{lines_length, rule_text};

mod copy;
mod spot;
mod stride;
mod texts;
