// The lines of a piece of the input, answered one after the other.
#![tactic(auto)]

ghost use Rattle.std.specs.Prelude.{List, ◌++◌, ℕ, ◌+◌, ◌*◌, ◌<◌, ◌≤◌, length};
ghost use Rattle.words.specs.Reply.{Reply};
ghost use Rattle.machine.specs.Machine.{Table};
ghost use Rattle.text.specs.Lines.{lines_of};
ghost use Rattle.trees.specs.Shape.{tree_most};
ghost use Rattle.table.specs.Opening.{Opens};
ghost use Rattle.long_line.specs.Held.{count_most, LongHeld};
ghost use Rattle.output.specs.Queue.{Waiting, seen, SameBuffer, TextPut};
ghost use Rattle.respond.specs.Response.{SameRoom, line_answer};
ghost use Rattle.pieces.specs.Piece.{FeedFree, LinesAnswered, PieceSoFar};

use layout::OpenTable;
use long_line::LongLine;
use output::Out;
use respond::{Question, Scratch};

// Answers a whole line and counts the answer.
pub fn answer(
    question: Question,
    line: LongLine,
    tree: &[u8],
    scratch: &mut Scratch,
    out: &mut Out,
    counts: &mut [u64],
)
    ensures same_room { SameRoom scratch.old.room scratch.new.room }
    ensures same_buffer { SameBuffer (seen out.old) (seen out.new) }
    ensures answered { (cs : List ℕ) (t : Reply Table) → length cs < count_most → tree_most < length tree.now
        → LongHeld question.entry.frames.now question.entry.numbers.now (2 * length tree.now) cs tree.now line
        → Opens question.entry.frames.now question.entry.numbers.now t question.entry.opening
        → TextPut (line_answer question.entry.asked t (length scratch.old.room.now) cs) (seen out.old) (seen out.new) }
{
    let counted = question.to_line(line, tree, scratch, out);
    line_counts::raise(counts, counted);
}

// How far a piece was taken, and what that leaves.
#[derive(Clone, Copy)]
struct Taken {
    at: usize,
    line: LongLine,
}

// Takes the characters of a piece from `at` on, up to a line feed, and answers the line that ends there; or up to the piece's end.
fn take_line(
    question: Question,
    line: LongLine,
    piece: &[u8],
    at: usize,
    tree: &mut [u8],
    scratch: &mut Scratch,
    out: &mut Out,
    counts: &mut [u64],
) -> Taken
    requires { at < length piece.now }
    ensures same_room { SameRoom scratch.old.room scratch.new.room }
    ensures same_buffer { SameBuffer (seen out.old) (seen out.new) }
    ensures at_lt_at { (at < result.at) × (result.at ≤ length piece.now) }
    ensures by_index { (T₀ : List ℕ) (l₀ : LongLine) (O₀ : Waiting)
        → PieceSoFar question.entry.asked question.entry.frames.now question.entry.numbers.now T₀ l₀ question.entry.opening
        (length scratch.old.room.now) piece.now O₀ at (seen out.old) tree.old line
        → PieceSoFar question.entry.asked question.entry.frames.now question.entry.numbers.now T₀ l₀ question.entry.opening
        (length scratch.old.room.now) piece.now O₀ result.at (seen out.new) tree.new result.line }
{
    let fed = hexline::feed_all(line.line, &piece[at..], tree);
    let line = long_line::with_rest(line, fed.line);
    let at = at + fed.taken;
    if at < piece.len() {
        answer(question, line, tree, scratch, out, counts);
        return Taken {
            at: at + 1,
            line: long_line::start(),
        };
    }
    Taken { at, line }
}

// Takes a piece of the input: each line that ends in it is answered, in their order. The tree has places for the bytes of the longest
// tree, and of the piece.
pub fn take(
    question: Question,
    line: LongLine,
    piece: &[u8],
    tree: &mut [u8],
    scratch: &mut Scratch,
    out: &mut Out,
    counts: &mut [u64],
) -> LongLine
    ensures same_room { SameRoom scratch.old.room scratch.new.room }
    ensures same_buffer { SameBuffer (seen out.old) (seen out.new) }
    ensures answered { (cs : List ℕ) (t : Reply Table) → FeedFree cs → length cs + length piece.now < count_most
        → 2 * tree_most + 2 + length piece.now ≤ 2 * length tree.old
        → LongHeld question.entry.frames.now question.entry.numbers.now (2 * length tree.old) cs tree.old line
        → Opens question.entry.frames.now question.entry.numbers.now t question.entry.opening
        → LinesAnswered question.entry.asked question.entry.frames.now question.entry.numbers.now t (length scratch.old.room.now)
        (lines_of (cs ++ piece.now)) (seen out.old) (seen out.new) (2 * length tree.new) tree.new result }
{
    let Question {
        frames,
        numbers,
        ..
    } = question;
    let mut line = long_line::with_places(line, tree, &OpenTable { frames, numbers });
    let mut at = 0;
    // A turn goes up to the next line feed, so no range or iterator has the turns.
    while at < piece.len() {
        let taken = take_line(question, line, piece, at, tree, scratch, out, counts);
        at = taken.at;
        line = taken.line;
    }
    line
}
