// The fields of a frame, read from left to right by a cursor: each answers its value, or why the
// frame is refused.
#![tactic(auto)]

ghost use Rattle.std.specs.Prelude.{◌≡◌, ◌+◌, ◌*◌, ◌^◌, ◌<◌, ◌≤◌, length};
ghost use Rattle.std.proofs.Math.Seq.{slice};
ghost use Rattle.text.specs.Fields as text;
ghost use Rattle.fields.specs.Read.{number_of, ByteRead, NumberRead, WordRead, one_child, ChildRead, KidsRead, Finished, FirstAfter, RestAfter};

// Why a frame of a table text is refused.
#[derive(Clone, Copy, PartialEq, Eq)]
pub enum Fault {
    EmptyLine,
    OutOfOrder,
    OutOfRange,
    WrongLength,
}

impl Fault {
    // The number of no that a table text's refusal has.
    pub fn number(self) -> u8
        ensures { result ≡ number_of self }
    {
        match self {
            Fault::EmptyLine => 2,
            Fault::OutOfOrder => 3,
            Fault::OutOfRange => 4,
            Fault::WrongLength => 5,
        }
    }
}

// A frame while its fields are read: those that are left stand from `at` to `end`.
#[derive(Drop)]
pub struct Cursor<'a> {
    pub frames: &'a [u8],
    pub at: usize,
    pub end: usize,
    ghost before_end: { at ≤ end },
    ghost inside: { end ≤ length frames.now },
}

// A child's state, and the letters of the word behind it.
#[derive(Clone, Copy)]
pub struct OneChild {
    pub state: usize,
    pub letters: usize,
}

// What the children of a rule come to: the letters of the words behind them, their states and their
// count in one number.
#[derive(Clone, Copy)]
pub struct Kids {
    pub letters: usize,
    pub packed: u64,
}

impl<'a> Cursor<'a> {
    // The byte that comes next: 5 if it is lacking.
    fn byte(&mut self) -> Result<usize, Fault>
        ensures read { ByteRead self.old.frames.now self.old.at self.old.end self.new.at result }
        ensures frames { self.new.frames ≡ self.old.frames }
        ensures end { self.new.end ≡ self.old.end }
    {
        if self.at == self.end {
            return Err(Fault::WrongLength);
        }
        let value = usize::from(self.frames[self.at]);
        self.at += 1;
        Ok(value)
    }

    // A number from `least` to `most`: 5 if its byte is lacking, 4 if it is beyond its range.
    pub fn within(&mut self, least: usize, most: usize) -> Result<usize, Fault>
        ensures read { NumberRead self.old.frames.now self.old.at self.old.end self.new.at
            (text.within least most (slice self.old.at self.old.end self.old.frames.now)) result }
        ensures frames { self.new.frames ≡ self.old.frames }
        ensures end { self.new.end ≡ self.old.end }
    {
        let value = self.byte()?;
        if value < least || most < value {
            return Err(Fault::OutOfRange);
        }
        Ok(value)
    }

    // A state or a symbol, which is below n: 5 if its byte is lacking, 4 if it is not below n.
    pub fn below(&mut self, n: usize) -> Result<usize, Fault>
        ensures read { NumberRead self.old.frames.now self.old.at self.old.end self.new.at
            (text.below n (slice self.old.at self.old.end self.old.frames.now)) result }
        ensures frames { self.new.frames ≡ self.old.frames }
        ensures end { self.new.end ≡ self.old.end }
    {
        let value = self.byte()?;
        if value < n {
            Ok(value)
        } else {
            Err(Fault::OutOfRange)
        }
    }

    // A word's length: one byte, at most 32, and then the word's letters, which are passed over.
    pub fn word(&mut self) -> Result<usize, Fault>
        ensures read { WordRead self.old.frames.now self.old.at self.old.end self.new.at
            (text.text (slice self.old.at self.old.end self.old.frames.now)) result }
        ensures frames { self.new.frames ≡ self.old.frames }
        ensures end { self.new.end ≡ self.old.end }
    {
        let letters = self.within(0, layout::LETTERS)?;
        if letters <= self.end - self.at {
            self.at += letters;
            Ok(letters)
        } else {
            Err(Fault::WrongLength)
        }
    }

    // One child: its state, which is below `states`, and a word.
    fn child(&mut self, states: usize) -> Result<OneChild, Fault>
        ensures read { ChildRead self.old.frames.now self.old.at self.old.end self.new.at
            (one_child states (slice self.old.at self.old.end self.old.frames.now)) result }
        ensures frames { self.new.frames ≡ self.old.frames }
        ensures end { self.new.end ≡ self.old.end }
    {
        let state = self.below(states)?;
        let letters = self.word()?;
        Ok(OneChild { state, letters })
    }

    // The children of a rule, for each its state and a word.
    pub fn children(&mut self, states: usize, count: usize) -> Result<Kids, Fault>
        requires { (states ≤ 64) × (count ≤ 4) }
        ensures read { KidsRead self.old.frames.now self.old.at self.old.end self.new.at
            (text.children states count (slice self.old.at self.old.end self.old.frames.now)) result }
        ensures frames { self.new.frames ≡ self.old.frames }
        ensures end { self.new.end ≡ self.old.end }
    {
        let mut letters: usize = 0;
        let mut first: u64 = 0;
        let mut rest: u64 = 0;
        for done in 0..count {
            let kid = self.child(states)?;
            first = first_after(done, first, kid.state as u64);
            rest = rest_after(done, rest, kid.state as u64);
            letters += kid.letters;
        }
        Ok(Kids {
            letters,
            packed: packed_of(first, rest, count),
        })
    }

    // The end of the frame: 5 for bytes left over.
    pub fn finish(&self) -> Result<(), Fault>
        ensures { Finished self.now.at self.now.end result }
    {
        if self.at < self.end {
            return Err(Fault::WrongLength);
        }
        Ok(())
    }
}

// The first child's state, where `done` children came before this one.
fn first_after(done: usize, first: u64, state: u64) -> u64
    requires { (first < 64) × (state < 64) }
    ensures { FirstAfter done first state result }
{
    if done == 0 { state } else { first }
}

// The states of the children behind the first, where `done` children came before this one.
fn rest_after(done: usize, rest: u64, state: u64) -> u64
    requires { (rest < 1024 ^ 3) × (state < 64) }
    ensures { RestAfter done rest state result }
{
    if done == 0 { rest } else { rest * 1024 + state }
}

// The children's states, ten bits each, and their number in one number.
fn packed_of(first: u64, rest: u64, count: usize) -> u64
    requires { (first < 64) × (rest < 1024 ^ 3) × (count ≤ 4) }
    ensures { (result ≡ first * 2 ^ 21 + rest * 2 ^ 31 + count * 2 ^ 61) × (result < 5 * 2 ^ 61) }
{
    first * 2097152 + rest * 2147483648 + (count as u64) * 2305843009213693952
}
