// One line of lowercase hexadecimal, decoded into lent bytes.
#![tactic(auto)]

ghost use Rattle.std.specs.Prelude.{◌≡◌, ◌+◌, ◌*◌, ◌<◌, ◌≤◌, length, drop};
ghost use Rattle.text.specs.Limits.{text_most};
ghost use Rattle.lines.specs.Scan.{scan, Valued, EndedAt, LineTaken};

// A line's number of bytes and where the next line starts.
#[derive(Clone, Copy)]
pub struct Line {
    pub bytes: usize,
    pub next: usize,
}

// The value of each lowercase hexadecimal digit, 16 for any other character: made once a line,
// since a constant array would be made again at each look.
fn digit_values() -> [u8; 256]
    ensures { Valued result }
{
    let mut values = [16u8; 256];
    values[48..58].copy_from_slice(&[0, 1, 2, 3, 4, 5, 6, 7, 8, 9]);
    values[97..103].copy_from_slice(&[10, 11, 12, 13, 14, 15]);
    values
}

// The line that ends at i with n bytes, where its 0a stands there.
fn ended(text: &[u8], i: usize, n: usize) -> Option<Line>
    ensures { EndedAt text.now i n result }
{
    if i < text.len() && text[i] == 10 {
        Some(Line {
            bytes: n,
            next: i + 1,
        })
    } else {
        None
    }
}

// Decodes the line of text that starts at `at` into frames from `used` on; none for a line that is
// no bytes.
pub fn take_line(text: &[u8], at: usize, frames: &mut [u8], used: usize) -> Option<Line>
    requires at_in_bounds { (at ≤ length text.now) × (length text.now ≤ text_most) }
    requires used_bound { (2 * used ≤ at) × (16384 ≤ length frames.old) }
    ensures { LineTaken text.now (scan (drop at text.now)) at used frames.old frames.new result }
{
    let values = digit_values();
    let pairs = (text.len() - at) / 2;
    // Where a line ends is answered, so the pairs are counted and not taken by an iterator of chunks.
    for n in 0..pairs {
        let i = at + 2 * n;
        let h = values[usize::from(text[i])];
        if 15 < h {
            return ended(text, i, n);
        }
        let l = values[usize::from(text[i + 1])];
        if 15 < l {
            return None;
        }
        frames[used + n] = h * 16 + l;
    }
    ended(text, at + 2 * pairs, pairs)
}
