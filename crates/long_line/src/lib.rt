// A line of hexadecimal of any length, as it comes in pieces. The bytes that came last are held; where these are more than a tree may
// have, they are looked through as a part of a record's stream, and only what is told of them is kept.
#![tactic(auto)]

ghost use Rattle.std.specs.Prelude.{◌≡◌, List, [], ◌++◌, ℕ, ◌+◌, ◌*◌, ◌<◌, length, ltb};
ghost use Rattle.std.proofs.Math.Option.{some};
ghost use Rattle.words.specs.Reply.{refusal as Reply·refusal, ◌then◌};
ghost use Rattle.words.specs.Told.{Told};
ghost use Rattle.text.specs.Lines.{bytes_of};
ghost use Rattle.trees.specs.Shape.{tree_most, read_tree};
ghost use Rattle.records.specs.Calls.{spelled};
ghost use Rattle.layout.specs.Lent.{Means};
ghost use Rattle.hexline.specs.SoFar.{any_of};
ghost use Rattle.long_line.specs.Held.{count_most, MarksTold, PastTold, LongHeld, SomeBytes, AllOrLong, long_reply};

use hexline::{End, SoFar};
use layout::OpenTable;
use words::No;

// Bytes that are held no more: how many, and what they leave open as the front of a stream, or its refusal.
#[derive(Clone, Copy)]
pub struct Past {
    pub bytes: usize,
    pub told: Result<usize, No>,
}

// A line so far: what is held of it no more, and what has come behind that.
#[derive(Clone, Copy)]
pub struct LongLine {
    pub past: Past,
    pub line: SoFar,
}

// A line of which nothing has come.
pub fn start() -> LongLine
    ensures { (F I T : List ℕ) (k : ℕ) → 0 < k → LongHeld F I k [] T result }
{
    let past = Past {
        bytes: 0,
        told: Ok(0),
    };
    LongLine {
        past,
        line: hexline::start(),
    }
}

// What the front of a stream leaves open with some bytes more, the first of them at `place`; or the refusal.
fn look_on(told: Result<usize, No>, place: usize, bytes: &[u8], last: u8) -> Result<usize, No>
    ensures { (gone : List ℕ) → place ≡ length gone → length gone + length bytes.now < count_most
        → MarksTold last gone told → MarksTold last (gone ++ bytes.now) result }
{
    let elements = told?;
    if elements <= place && place <= usize::MAX - bytes.len() {
        return stream_check::go_on(bytes, last, 255, elements, place);
    }
    told
}

// What is held no more, with some bytes more.
fn past_with(past: Past, bytes: &[u8], table: &OpenTable<'_, '_>) -> Past
    ensures { (gone : List ℕ) → length gone + length bytes.now < count_most
        → PastTold table.now.frames.now table.now.numbers.now gone past
        → PastTold table.now.frames.now table.now.numbers.now (gone ++ bytes.now) result }
{
    let told = match record_symbols::last_symbol(table) {
        Ok(last) => look_on(past.told, past.bytes, bytes, last),
        Err(_) => past.told,
    };
    Past {
        bytes: past.bytes.saturating_add(bytes.len()),
        told,
    }
}

// The line with places for more bytes: where those that are held are more than a tree may have, they are looked through.
pub fn with_places(line: LongLine, tree: &[u8], table: &OpenTable<'_, '_>) -> LongLine
    ensures { (cs : List ℕ) → length cs < count_most
        → LongHeld table.now.frames.now table.now.numbers.now (2 * length tree.now) cs tree.now line
        → LongHeld table.now.frames.now table.now.numbers.now (2 * tree_most + 2) cs tree.now result }
{
    let SoFar { bytes, end, .. } = line.line;
    let any = match end {
        End::Whole => false,
        End::Digit(_) => true,
        End::Strange => return line,
    };
    if bytes <= layout::TREE {
        return line;
    }
    LongLine {
        past: past_with(line.past, output::front(tree, bytes), table),
        line: SoFar { bytes: 0, end, any },
    }
}

// The line with what has come behind that which is held no more.
pub fn with_rest(line: LongLine, rest: SoFar) -> LongLine
    ensures { result ≡ record { past = line.past; line = rest } }
{
    LongLine {
        past: line.past,
        line: rest,
    }
}

// Whether anything has come.
pub fn is_begun(line: LongLine) -> bool
    ensures { (F I cs T : List ℕ) (k : ℕ) → LongHeld F I k cs T line → result ≡ any_of cs }
{
    is_long(line) || line.line.any
}

// Whether the line is whole bytes in lowercase hexadecimal.
pub fn is_hex(line: LongLine) -> bool
    ensures { (F I cs T : List ℕ) (k : ℕ) → LongHeld F I k cs T line → Told (SomeBytes cs) result }
{
    hexline::is_hex(line.line)
}

// Whether the line has bytes that are held no more, and so more of them than a tree may have.
pub fn is_long(line: LongLine) -> bool
    ensures { result ≡ ltb 0 line.past.bytes }
{
    0 < line.past.bytes
}

// The line's bytes; or where they are too many for a tree and not held, others that are too many too.
pub fn held<'a>(line: LongLine, tree: &'a [u8]) -> &'a [u8]
    ensures { (F I cs bs : List ℕ) → tree_most < length tree.now → bytes_of cs ≡ some bs
        → LongHeld F I (2 * length tree.now) cs tree.now line → AllOrLong bs result.now line.past.bytes }
{
    if is_long(line) {
        return tree;
    }
    output::front(tree, line.line.bytes)
}

// The refusal of a stream with more bytes than a tree may have, the last of which are given: its own, or 6.
fn refusal_under(past: Past, bytes: &[u8], last: u8) -> No
    ensures { (gone : List ℕ) → past.bytes ≡ length gone → tree_most < length gone
        → length gone + length bytes.now < count_most → MarksTold last gone past.told
        → long_reply last (gone ++ bytes.now) ≡ Reply·refusal result }
{
    match look_on(past.told, past.bytes, bytes, last) {
        Err(no) => no,
        Ok(0) => No {
            number: 6,
            place: 0,
        },
        Ok(_) => No {
            number: 22,
            place: past.bytes.saturating_add(bytes.len()),
        },
    }
}

// The refusal of a line as a record's stream under an opened table, where it is long: 20, then the stream's own, then 6.
pub fn refusal(line: LongLine, tree: &[u8], table: &OpenTable<'_, '_>) -> No
    ensures { (cs bs : List ℕ) → length cs < count_most → bytes_of cs ≡ some bs → 0 < line.past.bytes
        → LongHeld table.now.frames.now table.now.numbers.now (2 * length tree.now) cs tree.now line
        → Means table.now (λ M. (spelled M.arities bs then read_tree M.arities) ≡ Reply·refusal result) }
{
    match record_symbols::last_symbol(table) {
        Ok(last) => {
            let bytes = output::front(tree, line.line.bytes);
            refusal_under(line.past, bytes, last)
        }
        Err(no) => no,
    }
}
