// Bytes put to the front of a room with one of them replaced by another: a stream as tree bytes, and tree bytes as a stream.
#![tactic(auto)]

ghost use Rattle.std.specs.Prelude.{◌≡◌, ◌∷◌, ◌++◌, map, suc, ◌<◌, ◌≤◌, length, drop};
ghost use Rattle.records.specs.Records.{replaced, spell};

// Byte b, or `new` where b is `old`.
fn exchanged(b: u8, old: u8, new: u8) -> u8
    ensures { result ≡ replaced old new b }
{
    if b == old { new } else { b }
}

// Puts bytes to the front of the room, with `new` for each `old`.
pub fn put_replaced(bytes: &[u8], old: u8, new: u8, room: &mut [u8])
    requires { length bytes.now ≤ length room.old }
    ensures { room.new ≡ map (replaced old new) bytes.now ++ drop (length bytes.now) room.old }
{
    for (i, byte) in bytes.iter().enumerate() {
        room[i] = exchanged(*byte, old, new);
    }
}

// Puts the tree bytes of a record's image to the front of the room: its stream with the last symbol for each ff, and one more.
pub fn put_image(stream: &[u8], last: u8, room: &mut [u8])
    requires { length stream.now < length room.old }
    ensures { room.new
        ≡ map (spell last) stream.now ++ last ∷ drop (suc (length stream.now)) room.old }
{
    put_replaced(stream, 255, last, room);
    room[stream.len()] = last;
}
