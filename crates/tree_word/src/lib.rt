// The word of a planned tree, put into a room behind what stands there; and a word that is at hand, put there.
#![tactic(auto)]

ghost use Rattle.std.specs.Prelude.{◌≡◌, ◌++◌, ℕ, ◌+◌, ◌≤◌, length, take, drop};
ghost use Rattle.words.specs.Word.{Word};
ghost use Rattle.machine.specs.Machine.{Tree, Table};
ghost use Rattle.trees.specs.Shape.{depth_most};
ghost use Rattle.word_writer.specs.WordWritten.{Due};

// Copies a word into the room from `at` on, and answers the place behind it. The loops here stay: with
// copy_from_slice a call took 64 to 92 instructions more where words have up to 8 letters.
pub fn put(word: &[u8], room: &mut [u8], at: usize) -> usize
    requires { at + length word.now ≤ length room.old }
    ensures { (result ≡ at + length word.now)
        × (room.new ≡ take at room.old ++ word.now ++ drop (at + length word.now) room.old) }
{
    for i in 0..word.len() {
        room[at + i] = word[i];
    }
    at + word.len()
}

// The 32 bytes of the room from `at` on, read in a loop for the reason given above.
fn saved(room: &[u8], at: usize) -> [u8; 32]
    requires { at + 32 ≤ length room.now }
    ensures { result ≡ take 32 (drop at room.now) }
{
    let mut piece = [0u8; 32];
    for i in 0..32 {
        piece[i] = room[at + i];
    }
    piece
}

// Writes the word of a planned tree, of so many letters, into the room from `from` on. Where the
// room has 32 bytes behind the word they are lent too, so that its last letters are copied at once,
// and put back afterwards.
pub fn put_tree(
    frames: &[u8; layout::FRAMES],
    plan: &[u32; layout::TREE],
    letters: usize,
    room: &mut [u8],
    from: usize,
)
    requires { (letters ≤ 8388608) × (from + letters ≤ length room.old) }
    ensures { (M : Table) (q : ℕ) (t : Tree) (w : Word) → Due frames.now plan.now 0 depth_most letters M q t w → letters ≡ length w
        → room.new ≡ take from room.old ++ w ++ drop (from + letters) room.old }
{
    let end = from + letters;
    if room.len() - end < 32 {
        word_writer::eval(layout::LEVELS, plan, frames, 0, &mut room[from..end]);
        return;
    }
    let behind = saved(room, end);
    let spare = end + 32;
    word_writer::eval(layout::LEVELS, plan, frames, 0, &mut room[from..spare]);
    put(&behind, room, end);
}
