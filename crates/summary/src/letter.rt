// The summary of a word by its letter, and whether a word can be pushed to the left of a state by its summary.
ghost use Rattle.std.specs.Prelude.{◌≡◌, false, ◌∷◌};
ghost use Rattle.std.proofs.Math.Option.{some};
ghost use Rattle.words.specs.Word.{Word};
ghost use Rattle.end_laws.specs.Ends.{alone, stuck};
ghost use Rattle.summary.specs.Codes.{decode, Firm};

use crate::{Letters, Summary};

impl Summary {
    // The summary of a set with one word that ends in this letter.
    pub fn lettered(a: u8) -> Summary
        ensures { decode result ≡ alone (some a) }
    {
        Summary {
            code: u16::from(a) + 1,
        }
    }

    // Whether some word can be pushed to the left of a state with this summary: it has the empty word, and at most one letter.
    pub fn narrow(self) -> bool
        ensures { result ≡ false → Firm (decode self) }
    {
        self.has_empty() && self.letters() != Letters::Several
    }

    // Whether a word that begins with this letter can be pushed to the left of a state with this summary.
    pub fn stuck_by(self, a: u8) -> bool
        ensures { (w : Word) → result ≡ stuck (decode self) (a ∷ w) }
    {
        if !self.has_empty() {
            return false;
        }
        match self.letters() {
            Letters::Nothing => true,
            Letters::One(b) => a == b,
            Letters::Several => false,
        }
    }
}
