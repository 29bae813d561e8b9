// Bytes in lowercase hexadecimal, put into the buffer as many at a time as it has places for.
ghost use Rattle.std.specs.Prelude.{◌≡◌};
ghost use Rattle.text.specs.Lines.{hex_of};
ghost use Rattle.output.specs.Queue.{count, seen, TextPut};
ghost use Rattle.output.specs.Places.{Spelt, SpeltSome, TwoPlaces};

use crate::buffer::Out;

// The digits of bytes, two for each, put at the front of places, as far as these reach; answers of
// how many bytes.
fn spell(bytes: &[u8], places: &mut [u8]) -> usize
    ensures { Spelt bytes.now places.old places.new result }
{
    let n = bytes.len().min(places.len() / 2);
    for i in 0..n {
        let byte = bytes[i];
        places[i * 2] = digits::digit(byte / 16);
        places[i * 2 + 1] = digits::digit(byte % 16);
    }
    n
}

impl<'a> Out<'a> {
    // Leaves places for two digits: the waiting bytes are written first where two have none.
    fn make_room_for_two(&mut self)
        ensures kept { self.new.bytes.now ≡ self.old.bytes.now }
        ensures same_buffer { self.new.bytes.ghost_name ≡ self.old.bytes.ghost_name }
        ensures two { TwoPlaces self.old.bytes.now (count self.old.waiting) (count self.new.waiting) }
    {
        if self.places() < 2 {
            self.flush();
        }
    }

    // Puts the digits of as many bytes as there are places for, and answers how many; of none only where a write has failed.
    fn put_some_hex(&mut self, bytes: &[u8]) -> usize
        ensures { SpeltSome bytes.now (seen self.old) (seen self.new) result }
    {
        self.make_room_for_two();
        if self.places() < 2 {
            self.waiting = None;
            return 0;
        }
        let Some(start) = self.waiting else {
            return 0;
        };
        let n = spell(bytes, &mut self.bytes[start..]);
        self.waiting = Some(start + n * 2);
        n
    }

    // Puts bytes in lowercase hexadecimal.
    pub fn put_hex(&mut self, bytes: &[u8])
        ensures { TextPut (hex_of bytes.now) (seen self.old) (seen self.new) }
    {
        let mut done = 0;
        // How many bytes a turn takes is known only in it, so no range or iterator has the turns.
        while done < bytes.len() {
            let n = self.put_some_hex(&bytes[done..]);
            if n == 0 {
                return;
            }
            done += n;
        }
    }
}
