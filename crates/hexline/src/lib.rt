// A line of lowercase hexadecimal, taken as it comes in pieces, decoded into lent bytes.
#![tactic(auto)]

ghost use Rattle.std.specs.Prelude.{◌≡◌, List, [], ◌∷◌, ◌++◌, ℕ, ◌*◌, ◌+◌, ◌<◌, take};
ghost use Rattle.words.specs.Told.{Told};
ghost use Rattle.hexline.specs.SoFar.{Value, ByteStored, LineHeld, WholeBytes, UpToFeed};

// How a line ends: with a whole byte, with a digit that waits for its fellow, or with no byte whatever comes, since another character
// was in it.
#[derive(Clone, Copy)]
pub enum End {
    Whole,
    Digit(u8),
    Strange,
}

// A line so far: how many bytes it has given, how it ends and whether anything was in it. That is no end of its own, since a line goes
// on from nothing as from a whole byte.
#[derive(Clone, Copy)]
pub struct SoFar {
    pub bytes: usize,
    pub end: End,
    pub any: bool,
}

// A line after some characters of a piece, and how many of these it took.
#[derive(Clone, Copy)]
pub struct Fed {
    pub line: SoFar,
    pub taken: usize,
}

// A line of which nothing has come.
pub fn start() -> SoFar
    ensures { (tree : List ℕ) → LineHeld [] tree result }
{
    SoFar {
        bytes: 0,
        end: End::Whole,
        any: false,
    }
}

// Whether the line is whole bytes in lowercase hexadecimal.
pub fn is_hex(line: SoFar) -> bool
    ensures { (cs tree : List ℕ) → LineHeld cs tree line → Told (WholeBytes cs tree line.bytes) result }
{
    matches!(line.end, End::Whole)
}

// The value of a lowercase hexadecimal digit.
fn digit(c: u8) -> Option<u8>
    ensures { Value c result }
{
    match c {
        b'0'..=b'9' => Some(c - b'0'),
        b'a'..=b'f' => Some(c - b'a' + 10),
        _ => None,
    }
}

// The byte of two digits.
fn join(high: u8, low: u8) -> u8
    requires { low < 16 }
    ensures { high < 16 → result ≡ high * 16 + low }
{
    high.wrapping_mul(16) + low
}

// Stores a byte where the tree has a place for it, and answers how many bytes there are then.
fn store(b: u8, tree: &mut [u8], bytes: usize) -> usize
    ensures { ByteStored b tree.old bytes tree.new result }
{
    if bytes < tree.len() {
        tree[bytes] = b;
        bytes + 1
    } else {
        bytes
    }
}

// The line with one character more.
fn feed(line: SoFar, c: u8, tree: &mut [u8]) -> SoFar
    ensures { (cs : List ℕ) → LineHeld cs tree.old line → LineHeld (cs ++ c ∷ []) tree.new result }
{
    let Some(d) = digit(c) else {
        return SoFar {
            bytes: line.bytes,
            end: End::Strange,
            any: true,
        };
    };
    let (bytes, end) = match line.end {
        End::Whole => (line.bytes, End::Digit(d)),
        End::Digit(high) => (store(join(high, d), tree, line.bytes), End::Whole),
        End::Strange => (line.bytes, End::Strange),
    };
    SoFar {
        bytes,
        end,
        any: true,
    }
}

// The line with the characters of a piece up to a line feed or the piece's end.
pub fn feed_all(line: SoFar, piece: &[u8], tree: &mut [u8]) -> Fed
    ensures up_to_feed { UpToFeed piece.now result.taken }
    ensures by_index { (cs : List ℕ) → LineHeld cs tree.old line
        → LineHeld (cs ++ take result.taken piece.now) tree.new result.line }
{
    let mut line = line;
    for (taken, c) in piece.iter().enumerate() {
        if *c == b'\n' {
            return Fed { line, taken };
        }
        line = feed(line, *c, tree);
    }
    Fed {
        line,
        taken: piece.len(),
    }
}
