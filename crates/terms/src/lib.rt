// The terms of a word, counted where its letters stand: in pieces of 224 letters, whose letters 20
// are counted in a byte, so that the compiler compares many letters at once.
#![tactic(auto)]

ghost use Rattle.std.specs.Prelude.{◌≡◌, [], ◌∷◌, ◌≤◌, length, take};
ghost use Rattle.words.specs.Word.{spaces, terms};

// The letters of a piece, few enough for a byte.
const PIECE: usize = 224;

// 1 for letter 20, 0 for any other.
fn one(letter: u8) -> u8
    ensures { (result ≡ spaces (letter ∷ [])) × (result ≤ 1) }
{
    u8::from(letter == 32)
}

// How many letters of a piece, or of what is left behind the last, are letter 20.
fn spaces_in(piece: &[u8]) -> u8
    requires { length piece.now ≤ 224 }
    ensures { result ≡ spaces piece.now }
{
    let mut n: u8 = 0;
    for &letter in piece {
        n += one(letter);
    }
    n
}

// The number of a word's terms. With `chunks` in place of the index a word of 1,000 letters took a quarter more instructions,
// and with a range of pieces each call six more.
pub fn terms_of(word: &[u8]) -> usize
    ensures { result ≡ terms word.now }
{
    let mut n: usize = 1;
    let mut at = 0;
    while PIECE <= word.len() - at {
        n += usize::from(spaces_in(&word[at..at + PIECE]));
        at += PIECE;
    }
    n + usize::from(spaces_in(&word[at..]))
}

// The number of terms of the word that stands first in a room, with so many letters.
pub fn terms_in(room: &[u8], letters: usize) -> usize
    requires { letters ≤ length room.now }
    ensures { result ≡ terms (take letters room.now) }
{
    terms_of(&room[..letters])
}
