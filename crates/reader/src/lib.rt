// A reader keeps a table text and the place of its next line together; `lines::take_line` does the work.
#![tactic(auto)]

ghost use Rattle.std.specs.Prelude.{◌≡◌, ◌*◌, ◌≤◌, length};
ghost use Rattle.text.specs.Limits.{text_most};
ghost use Rattle.lines.specs.Scan.{scan};
ghost use Rattle.reader.specs.Ahead.{ahead, FrameRead};

use words::No;

// A frame that was read: the place of its line, and how many bytes it has.
#[derive(Clone, Copy)]
pub struct Frame {
    pub place: usize,
    pub bytes: usize,
}

// A table text and the place in it where the next line starts.
#[derive(Drop)]
pub struct Reader<'a> {
    text: &'a [u8],
    at: usize,
}

impl<'a> Reader<'a> {
    // The reader at a text's beginning.
    pub fn new(text: &'a [u8]) -> Reader<'a>
        ensures { (result.text ≡ text.entry) × (result.at ≡ 0) }
    {
        Reader { text, at: 0 }
    }

    // The frame of the line that comes next, decoded into frames from `used` on: none at the text's
    // end, and no 2 for a line that is no bytes.
    pub fn next(&mut self, frames: &mut [u8], used: usize) -> Result<Option<Frame>, No>
        requires at_in_bounds { (self.old.at ≤ length self.old.text.now) × (length self.old.text.now ≤ text_most) }
        requires used_bound { (2 * used ≤ self.old.at) × (16384 ≤ length frames.old) }
        ensures read { FrameRead self.old.text.now (scan (ahead self.old)) self.old.at used frames.old frames.new self.new.at result }
        ensures text { self.new.text ≡ self.old.text }
    {
        let place = self.at;
        if place == self.text.len() {
            return Ok(None);
        }
        let Some(line) = lines::take_line(self.text, place, frames, used) else {
            return Err(No { number: 2, place });
        };
        self.at = line.next;
        Ok(Some(Frame {
            place,
            bytes: line.bytes,
        }))
    }
}
