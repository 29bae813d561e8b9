// The lines of a table text in turn: any bytes come to an end with the frames and the rules of a
// table, or with one refusal and its place.
#![tactic(auto)]

ghost use Rattle.std.specs.Prelude.{◌≡◌, List, ℕ, ◌≤◌, length, Err};
ghost use Rattle.words.specs.Reply.{given, no_at};
ghost use Rattle.machine.specs.Machine.{Table};
ghost use Rattle.text.specs.Limits.{text_most};
ghost use Rattle.text.specs.Frames as text;
ghost use Rattle.text.specs.Reading as reading;
ghost use Rattle.text.specs.Reading.{read_table};
ghost use Rattle.text.specs.Writing.{Limited};
ghost use Rattle.layout.specs.Layout.{frames_size};
ghost use Rattle.head_frames.specs.Staged.{Staged};
ghost use Rattle.table_lines.specs.Reads.{Reads};

use head_frames::{Head, Note, Phase, Stage};
use reader::Reader;
use words::No;

fn refuse(number: u8, place: usize) -> Result<Head, No>
    ensures { result ≡ Err (no_at number place) }
{
    Err(No { number, place })
}

// What the stage at the text's end comes to: the end frame has been read, or 3 at the text's length.
fn finish(st: Stage, place: usize) -> Result<Head, No>
    ensures { (F : List ℕ) (R : List Note) (s : text.Stage) → Staged F R st s → length F ≡ frames_size
        → ((M : Table) → reading.finish s place ≡ given M → Limited M) → Reads F R (reading.finish s place) result }
{
    let head = st.head;
    if st.phase == Phase::Ended {
        Ok(head)
    } else {
        refuse(3, place)
    }
}

// Reads the lines of a text in turn; the first faulty line answers. Frames go into the bytes, and a
// note of each rule into the list.
fn read_lines(
    text: &[u8],
    bytes: &mut [u8; layout::FRAMES],
    rules: &mut [Note; layout::RULES],
) -> Result<Head, No>
    requires { (1 ≤ length text.now) × (length text.now ≤ text_most) }
    ensures { Reads bytes.new rules.new (read_table text.now) result }
{
    let mut st = head_frames::start();
    let mut reader = Reader::new(text);
    while let Some(frame) = reader.next(bytes, st.used)? {
        match frames::step(st, bytes, rules, frame.bytes) {
            Ok(next) => st = next,
            Err(fault) => return refuse(fault.number(), frame.place),
        }
    }
    finish(st, text.len())
}

// Reads a table text, any bytes: its frames into the bytes, and a note of each rule into the list.
pub fn read_text(
    text: &[u8],
    bytes: &mut [u8; layout::FRAMES],
    rules: &mut [Note; layout::RULES],
) -> Result<Head, No>
    ensures { Reads bytes.new rules.new (read_table text.now) result }
{
    if text.len() == 0 || layout::TEXT < text.len() {
        return refuse(1, 0);
    }
    read_lines(text, bytes, rules)
}
