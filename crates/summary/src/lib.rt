// Summaries of sets of words, seen from a side: whether the empty word is there, and whether there is no letter, one and which, or several.
#![tactic(auto)]

ghost use Rattle.std.specs.Prelude.{◌≡◌, ◌<◌, get_or};
ghost use Rattle.end_laws.specs.Ends.{both, join, before, beside, lives, clean, rank_of, rank};
ghost use Rattle.summary.specs.Codes.{side_of, letters_of, letters_told, decode, untold};

mod letter;

// The side from which words are seen.
#[derive(Clone, Copy, PartialEq, Eq)]
pub enum Side {
    Left,
    Right,
}

// The letters at the ends of a set of words.
#[derive(Clone, Copy, PartialEq, Eq)]
pub enum Letters {
    Nothing,
    One(u8),
    Several,
}

// The summary of a set of words, kept as one number of two bytes: its letters, 0 for none, the letter and one more for one, 257 for
// several; and 1024 more with the empty word. With a flag beside `Letters` judging took up to 1.4 times the instructions.
#[derive(Clone, Copy, PartialEq, Eq)]
pub struct Summary {
    code: u16,
}

// No word is known.
pub const UNTOLD: Summary = Summary { code: 0 };

// The empty word alone.
pub const EMPTY: Summary = Summary { code: 1024 };

impl Letters {
    // How much the letters tell.
    fn rank(self) -> usize
        ensures { result ≡ rank_of (letters_of self) }
    {
        match self {
            Letters::Nothing => 0,
            Letters::One(_) => 1,
            Letters::Several => 2,
        }
    }
}

// The number of the letters of a union.
fn letters_joined(a: u16, b: u16) -> u16
    requires { (a < 1024) × (b < 1024) }
    ensures { (letters_told result ≡ both (letters_told a) (letters_told b)) × (result < 1024) }
{
    if a == 0 {
        return b;
    }
    if b == 0 {
        return a;
    }
    if a == b {
        return a;
    }
    257
}

impl Summary {
    // Whether the empty word is among the words.
    pub fn has_empty(self) -> bool
        ensures { result ≡ (decode self).empty }
    {
        1024 <= self.code
    }

    // The letters at the words' ends.
    pub fn letters(self) -> Letters
        ensures { letters_of result ≡ (decode self).letters }
    {
        let n = self.code % 1024;
        if n == 0 {
            return Letters::Nothing;
        }
        if n < 257 {
            return Letters::One((n - 1) as u8);
        }
        Letters::Several
    }

    // The summary of a union.
    pub fn joined(self, other: Summary) -> Summary
        ensures { decode result ≡ join (decode self) (decode other) }
    {
        let letters = letters_joined(self.code % 1024, other.code % 1024);
        if 1024 <= self.code {
            return Summary {
                code: letters + 1024,
            };
        }
        if 1024 <= other.code {
            return Summary {
                code: letters + 1024,
            };
        }
        Summary { code: letters }
    }

    // The summary of all words x y, seen from the side of x.
    fn in_front(self, y: Summary) -> Summary
        ensures { decode result ≡ before (decode self) (decode y) }
    {
        if self == UNTOLD {
            return UNTOLD;
        }
        if y == UNTOLD {
            return UNTOLD;
        }
        if self.code < 1024 {
            return self;
        }
        let letters = letters_joined(self.code % 1024, y.code % 1024);
        if y.code < 1024 {
            return Summary { code: letters };
        }
        Summary {
            code: letters + 1024,
        }
    }

    // The summary of all words x y, seen from a side.
    pub fn next_to(self, y: Summary, side: Side) -> Summary
        ensures { decode result ≡ beside (side_of side) (decode self) (decode y) }
    {
        match side {
            Side::Left => self.in_front(y),
            Side::Right => y.in_front(self),
        }
    }

    // Whether some word is known.
    pub fn lives(self) -> bool
        ensures { result ≡ lives (decode self) }
    {
        self.has_empty() || self.letters() != Letters::Nothing
    }

    // Whether the words share no letter: the empty word is among them, or there are several letters.
    pub fn clean(self) -> bool
        ensures { result ≡ clean (decode self) }
    {
        self.has_empty() || self.letters() == Letters::Several
    }

    // How much a summary tells.
    pub fn rank(self) -> usize
        ensures { result ≡ rank (decode self) }
    {
        self.letters().rank() + usize::from(self.has_empty())
    }
}

// What is kept for a state: that no word is known for a state that has no place.
pub fn kept(values: &[Summary], q: usize) -> Summary
    ensures { result ≡ get_or values.now q untold }
{
    if q < values.len() { values[q] } else { UNTOLD }
}
