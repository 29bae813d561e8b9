// Copying the word at a spot into a room: 32 bytes at a time, where the lent bytes and the room have them.
ghost use Rattle.std.specs.Prelude.{◌≡◌, ◌+◌, ◌<◌, ◌≤◌, List, ◌∷◌, ◌++◌, length, take, drop};
ghost use Rattle.words.specs.Word.{Word};
ghost use Rattle.machine.specs.Machine.{Child};
ghost use Rattle.layout.specs.Layout.{frames_size};
ghost use Rattle.layout.specs.Leaves.{Spot, Put};

use layout::FRAMES;

// The 16 bytes from `from` on. The loops stay: with one copy_from_slice of 32 bytes in place of `sixteen`
// and `store` a tree's word took 10 to 15 per cent more instructions.
fn sixteen(frames: &[u8; FRAMES], from: usize) -> [u8; 16]
    requires { from + 16 ≤ frames_size }
    ensures { from + 16 ≤ length frames.now → result ≡ take 16 (drop from frames.now) }
{
    let mut piece = [0u8; 16];
    for i in 0..16 {
        piece[i] = frames[from + i];
    }
    piece
}

// Stores 16 bytes in the room from `at` on, in a loop for the reason given above.
fn store(piece: [u8; 16], room: &mut [u8], at: usize)
    requires { at + 16 ≤ length room.old }
    ensures { room.new ≡ take at room.old ++ piece ++ drop (at + 16) room.old }
{
    for i in 0..16 {
        room[at + i] = piece[i];
    }
}

// Copies n bytes one by one.
fn copy(frames: &[u8; FRAMES], from: usize, room: &mut [u8], at: usize, n: usize)
    requires { (from + n ≤ frames_size) × (at + n ≤ length room.old) }
    ensures { from + n ≤ length frames.now
        → room.new ≡ take at room.old ++ take n (drop from frames.now) ++ drop (at + n) room.old }
{
    // As in `sixteen` the library's copy took more instructions, since words are short.
    for i in 0..n {
        room[at + i] = frames[from + i];
    }
}

// Puts a word byte by byte: one that stands at the end of the lent bytes, goes to the end of the
// room, or has more than 32 letters.
fn put_slowly(frames: &[u8; FRAMES], p: usize, room: &mut [u8], at: usize) -> usize
    requires { at ≤ length room.old }
    ensures { Put frames.now p at room.old room.new result }
{
    if FRAMES <= p {
        return at;
    }
    let n = usize::from(frames[p]);
    if FRAMES - p <= n {
        return at;
    }
    if room.len() - at < n {
        return at;
    }
    copy(frames, p + 1, room, at, n);
    at + n
}

// Puts the word at a spot into the room from `at` on, and answers the place behind it. Bytes behind
// the word may change too.
pub fn put_word(frames: &[u8; FRAMES], p: usize, room: &mut [u8], at: usize) -> usize
    requires { at ≤ length room.old }
    ensures { Put frames.now p at room.old room.new result }
{
    if FRAMES - 32 <= p {
        return put_slowly(frames, p, room, at);
    }
    let n = usize::from(frames[p]);
    if room.len() - at < 32 || 32 < n {
        return put_slowly(frames, p, room, at);
    }
    store(sixteen(frames, p + 1), room, at);
    store(sixteen(frames, p + 17), room, at + 16);
    at + n
}

// The spot of the word behind the child behind the word at a spot, with no test: with `next_spot` in its place a tree's word
// took 3 per cent more instructions. Whoever asks looks himself whether it lies inside the lent bytes.
pub fn next_spot_full(frames: &[u8; FRAMES], p: usize) -> usize
    requires { p < frames_size }
    ensures { (u : Word) (c : Child) (cs : List Child) → Spot frames.now u (c ∷ cs) p → Spot frames.now c.after cs result }
{
    p + 2 + usize::from(frames[p])
}
