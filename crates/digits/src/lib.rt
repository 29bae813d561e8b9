// Bytes and words written as hexadecimal digits into a lent room. What has no place in the room is left out, so that each writer can be asked for any place.
#![tactic(auto)]

ghost use Rattle.std.specs.Prelude.{◌≡◌, [], ◌∷◌, ◌+◌, ◌*◌, ◌<◌, ◌≤◌, length};
ghost use Rattle.text.specs.Lines.{digit_of, hex_of};
ghost use Rattle.text.specs.Writing.{text_of};
ghost use Rattle.digits.specs.Room.{Wrote};

// A number below 256 in a byte.
pub fn narrow(x: usize) -> u8
    ensures { x < 256 → result ≡ x }
{
    if x < 256 { x as u8 } else { 255 }
}

// The digit of a value below 16. From 10 on the letters begin, 39 behind the digits; v + 6 reaches 16 there.
pub fn digit(v: u8) -> u8
    requires { v < 16 }
    ensures { result ≡ digit_of v }
{
    v + 48 + (v + 6) / 16 * 39
}

// Writes a byte as two digits that have their places in a room, and answers the place behind them.
fn write_inside(room: &mut [u8], at: usize, b: u8) -> usize
    requires { (at + 2 ≤ length room.old) × (at + 2 < 1000000000) }
    ensures { Wrote room.old at (hex_of (b ∷ [])) room.new result × (result ≡ at + 2) }
{
    room[at] = digit(b / 16);
    room[at + 1] = digit(b % 16);
    at + 2
}

// Writes bytes as two digits each that have their places in a room. The place stands in a number of its own: with the
// pen's, which each byte stored may change for all that the compiler knows, a form took up to a third more instructions.
fn write_all_inside(room: &mut [u8], at: usize, bytes: &[u8]) -> usize
    requires { (at + 2 * length bytes.now ≤ length room.old) × (at + 2 * length bytes.now + 2 < 1000000000) }
    ensures { Wrote room.old at (hex_of bytes.now) room.new result × (result ≡ at + 2 * length bytes.now) }
{
    let mut end = at;
    for b in bytes {
        end = write_inside(room, end, *b);
    }
    end
}

// A lent room, and the place in it where the next byte goes.
#[derive(Drop)]
pub struct Pen<'a> {
    pub room: &'a mut [u8],
    pub at: usize,
}

impl<'a> Pen<'a> {
    // A pen at the beginning of the room.
    pub fn new(room: &'a mut [u8]) -> Pen<'a>
        ensures same_room { result.room.ghost_name ≡ room.entry.ghost_name }
        ensures start { (result.room.now ≡ room.old) × (result.at ≡ 0) }
    {
        Pen { room, at: 0 }
    }

    // Writes a byte if it has a place in the room.
    pub fn put(&mut self, b: u8)
        requires { self.old.at < 1000000000 }
        ensures same_room { self.new.room.ghost_name ≡ self.old.room.ghost_name }
        ensures wrote { Wrote self.old.room.now self.old.at (b ∷ []) self.new.room.now self.new.at }
    {
        if self.at < self.room.len() {
            self.room[self.at] = b;
        }
        self.at += 1;
    }

    // Writes a byte as two digits that have their places in the room.
    fn put_inside(&mut self, b: u8)
        requires { (self.old.at + 2 ≤ length self.old.room.now) × (self.old.at + 2 < 1000000000) }
        ensures same_room { self.new.room.ghost_name ≡ self.old.room.ghost_name }
        ensures wrote { Wrote self.old.room.now self.old.at (hex_of (b ∷ [])) self.new.room.now self.new.at }
        ensures end { self.new.at ≡ self.old.at + 2 }
    {
        self.at = write_inside(self.room, self.at, b);
    }

    // Writes a byte as two digits, each if it has a place in the room.
    pub fn put_byte(&mut self, b: u8)
        requires { self.old.at + 2 < 1000000000 }
        ensures same_room { self.new.room.ghost_name ≡ self.old.room.ghost_name }
        ensures wrote { Wrote self.old.room.now self.old.at (hex_of (b ∷ [])) self.new.room.now self.new.at }
        ensures end { self.new.at ≡ self.old.at + 2 }
    {
        if self.room.len() < self.at + 2 {
            self.put(digit(b / 16));
            self.put(digit(b % 16));
        } else {
            self.put_inside(b);
        }
    }

    // Writes a byte as two digits at another place, and stays where it is.
    pub fn put_byte_at(&mut self, at: usize, b: u8)
        requires { at + 2 < 1000000000 }
        ensures same_room { self.new.room.ghost_name ≡ self.old.room.ghost_name }
        ensures wrote { Wrote self.old.room.now at (hex_of (b ∷ [])) self.new.room.now (at + 2) }
        ensures stays { self.new.at ≡ self.old.at }
    {
        let end = self.at;
        self.at = at;
        self.put_byte(b);
        self.at = end;
    }

    // Writes bytes as two digits each, each byte if it has a place in the room.
    fn put_hex_across(&mut self, bytes: &[u8])
        requires { self.old.at + 2 * length bytes.now + 2 < 1000000000 }
        ensures same_room { self.new.room.ghost_name ≡ self.old.room.ghost_name }
        ensures wrote { Wrote self.old.room.now self.old.at (hex_of bytes.now) self.new.room.now self.new.at }
        ensures end { self.new.at ≡ self.old.at + 2 * length bytes.now }
    {
        for b in bytes {
            self.put_byte(*b);
        }
    }

    // Writes bytes as two digits each. Where all have their places no byte asks for its own.
    pub fn put_hex(&mut self, bytes: &[u8])
        requires { self.old.at + 2 * length bytes.now + 2 < 1000000000 }
        ensures same_room { self.new.room.ghost_name ≡ self.old.room.ghost_name }
        ensures wrote { Wrote self.old.room.now self.old.at (hex_of bytes.now) self.new.room.now self.new.at }
        ensures end { self.new.at ≡ self.old.at + 2 * length bytes.now }
    {
        if self.room.len() < self.at + 2 * bytes.len() {
            self.put_hex_across(bytes);
            return;
        }
        self.at = write_all_inside(self.room, self.at, bytes);
    }

    // Writes a word behind its length byte.
    pub fn put_text(&mut self, word: &[u8])
        requires { (length word.now < 256) × (self.old.at + 520 < 1000000000) }
        ensures same_room { self.new.room.ghost_name ≡ self.old.room.ghost_name }
        ensures wrote { Wrote self.old.room.now self.old.at (hex_of (text_of word.now)) self.new.room.now self.new.at }
        ensures end { self.new.at ≡ self.old.at + 2 + 2 * length word.now }
    {
        self.put_byte(narrow(word.len()));
        self.put_hex(word);
    }
}
