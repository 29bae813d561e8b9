// The line that answers a line of hexadecimal: what is asked of its bytes under an opened table, a refusal, or that the line is not
// hexadecimal.
#![tactic(auto)]

ghost use Rattle.std.specs.Prelude.{◌≡◌, ◌&&◌, List, ℕ, ◌*◌, ◌<◌, ltb, length};
ghost use Rattle.std.proofs.Math.Option.{some};
ghost use Rattle.words.specs.Reply.{Reply, refusal as Reply·refusal};
ghost use Rattle.machine.specs.Machine.{Table};
ghost use Rattle.text.specs.Lines.{bytes_of};
ghost use Rattle.trees.specs.Shape.{tree_most};
ghost use Rattle.layout.specs.Layout.{Meant};
ghost use Rattle.why_no_word.specs.Answer.{Answers};
ghost use Rattle.spelling.specs.Spells.{Spells};
ghost use Rattle.table.specs.Opening.{Opens};
ghost use Rattle.long_line.specs.Held.{count_most, LongHeld};
ghost use Rattle.output.specs.Queue.{seen, SameBuffer};
ghost use Rattle.answers.specs.Lines.{bytes_line};
ghost use Rattle.respond.specs.Response.{of_stream, reply_to, letters_line, given_line, SameRoom, Responds, Answered};

use layout::OpenTable;
use long_line::LongLine;
use output::Out;
use why_no_word::Letters;
use words::No;

// What is asked of a line's bytes: a tree's word; a record's word, or its tree; a tree's record.
#[derive(Clone, Copy)]
pub enum Asked {
    Word,
    RecordWord,
    RecordTree,
    TreeRecord,
}

// What is asked of each line, and the table under which: what its opening answered, and its memory.
#[derive(Clone, Copy)]
pub struct Question<'a> {
    pub asked: Asked,
    pub opening: Result<(), No>,
    pub frames: &'a [u8; layout::FRAMES],
    pub numbers: &'a [u64; layout::NUMBERS],
}

// Memory lent for the answers. What `image` and `plan` hold before and after says nothing.
#[derive(Drop)]
pub struct Scratch<'a> {
    pub image: &'a mut [u8; layout::TREE],
    pub plan: &'a mut [u32; layout::TREE],
    pub room: &'a mut [u8],
}

// Where an answer is counted: what was asked for at 0, a refusal at its number, a line that is not hexadecimal here.
// A number and no enum, since `Responds` and `Strange` of the specs say it, and the counts are lent as a slice of any length.
pub const STRANGE: usize = 25;

// A refusal: its number and place. Answers where it is counted, as all these do.
fn refused(no: No, out: &mut Out) -> usize
    ensures same_buffer { SameBuffer (seen out.old) (seen out.new) }
    ensures answered { (text : List ℕ → List ℕ) → Responds text (Reply·refusal no) (seen out.old) (seen out.new) result }
{
    let numbers = [u64::from(no.number), no.place as u64];
    answers::put_no(&numbers, out);
    usize::from(no.number)
}

// The answer of a call that finds a word, which stands first in the room.
fn put_found(found: Result<Letters, No>, room: &[u8], out: &mut Out) -> usize
    ensures same_buffer { SameBuffer (seen out.old) (seen out.new) }
    ensures answered { (a : Reply (List ℕ)) (R : List ℕ) → Answers a R room.now found
        → Responds letters_line a (seen out.old) (seen out.new) result }
{
    match found {
        Ok(word) => {
            let letters = output::front(room, word.length);
            answers::put_word(word.terms, letters, out);
            0
        }
        Err(no) => refused(no, out),
    }
}

// The answer of a call that writes bytes to the front of the room, with the name of what they are.
fn put_spelled(name: &[u8], spelled: Result<usize, No>, room: &[u8], out: &mut Out) -> usize
    ensures same_buffer { SameBuffer (seen out.old) (seen out.new) }
    ensures answered { (a : Reply (List ℕ)) (R : List ℕ) → Spells a R room.now spelled
        → Responds (bytes_line name.now) a (seen out.old) (seen out.new) result }
{
    match spelled {
        Ok(n) => {
            let bytes = output::front(room, n);
            answers::put_bytes(name, bytes, out);
            0
        }
        Err(no) => refused(no, out),
    }
}

// Whether the bytes are a record's stream.
fn of_stream(asked: Asked) -> bool
    ensures { result ≡ of_stream asked }
{
    matches!(asked, Asked::RecordWord | Asked::RecordTree)
}

// Whether the line is a stream with more bytes than a tree may have, of which some are held no more.
fn is_long_stream(asked: Asked, line: LongLine) -> bool
    ensures { result ≡ of_stream asked && ltb 0 line.past.bytes }
{
    of_stream(asked) && long_line::is_long(line)
}

impl<'a> Question<'a> {
    // The answer to bytes by an opened table.
    fn to_bytes(self, bytes: &[u8], scratch: &mut Scratch, out: &mut Out) -> usize
        ensures same_room { SameRoom scratch.old.room scratch.new.room }
        ensures same_buffer { SameBuffer (seen out.old) (seen out.new) }
        ensures answered { Meant self.entry.frames.now self.entry.numbers.now (λ M.
            Responds (given_line self.entry.asked) (reply_to self.entry.asked M bytes.now (length scratch.old.room.now)) (seen out.old) (seen out.new) result) }
    {
        let Question {
            frames,
            numbers,
            ..
        } = self;
        // Each call takes other parts of the memory and answers in its own way, so each stands in its arm.
        match self.asked {
            Asked::Word => {
                let found = word_call::find(frames, numbers, bytes, scratch.plan, scratch.room);
                put_found(found, scratch.room, out)
            }
            Asked::RecordWord => {
                let found = record_word_call::find(
                    frames,
                    numbers,
                    bytes,
                    scratch.image,
                    scratch.plan,
                    scratch.room,
                );
                put_found(found, scratch.room, out)
            }
            Asked::RecordTree => {
                let spelled = record_tree_call::tree(
                    &OpenTable { frames, numbers },
                    bytes,
                    scratch.room,
                );
                put_spelled(b"tree", spelled, scratch.room, out)
            }
            Asked::TreeRecord => {
                let spelled = tree_record_call::record(
                    &OpenTable { frames, numbers },
                    bytes,
                    scratch.room,
                );
                put_spelled(b"record", spelled, scratch.room, out)
            }
        }
    }

    // The answer to a line of whole bytes by an opened table: of a stream that is too long for a tree all was looked through, and the
    // refusal is known; of a tree that is too long any bytes are.
    fn to_held(self, line: LongLine, tree: &[u8], scratch: &mut Scratch, out: &mut Out) -> usize
        ensures same_room { SameRoom scratch.old.room scratch.new.room }
        ensures same_buffer { SameBuffer (seen out.old) (seen out.new) }
        ensures answered { (cs bs : List ℕ) → length cs < count_most → tree_most < length tree.now → bytes_of cs ≡ some bs
            → LongHeld self.entry.frames.now self.entry.numbers.now (2 * length tree.now) cs tree.now line
            → Meant self.entry.frames.now self.entry.numbers.now (λ M.
            Responds (given_line self.entry.asked) (reply_to self.entry.asked M bs (length scratch.old.room.now)) (seen out.old) (seen out.new) result) }
    {
        if is_long_stream(self.asked, line) {
            let Question {
                frames,
                numbers,
                ..
            } = self;
            let no = long_line::refusal(line, tree, &OpenTable { frames, numbers });
            return refused(no, out);
        }
        let bytes = long_line::held(line, tree);
        self.to_bytes(bytes, scratch, out)
    }

    // The answer to a whole line: one that is not hexadecimal first, then a refused table.
    pub fn to_line(self, line: LongLine, tree: &[u8], scratch: &mut Scratch, out: &mut Out) -> usize
        ensures same_room { SameRoom scratch.old.room scratch.new.room }
        ensures same_buffer { SameBuffer (seen out.old) (seen out.new) }
        ensures answered { (cs : List ℕ) (t : Reply Table) → length cs < count_most → tree_most < length tree.now
            → LongHeld self.entry.frames.now self.entry.numbers.now (2 * length tree.now) cs tree.now line
            → Opens self.entry.frames.now self.entry.numbers.now t self.entry.opening
            → Answered self.entry.asked t (bytes_of cs) (length scratch.old.room.now) (seen out.old) (seen out.new) result }
    {
        if !long_line::is_hex(line) {
            out.put_all(b"not hex\n");
            return STRANGE;
        }
        match self.opening {
            Ok(()) => self.to_held(line, tree, scratch, out),
            Err(no) => refused(no, out),
        }
    }
}
