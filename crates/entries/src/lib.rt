// Answers as C and Rust link them: the number is returned, 0 for a yes; what else an answer holds goes
// into one array, every entry of which is written.
#![tactic(auto)]

ghost use Rattle.std.specs.Prelude.{◌≡◌};
ghost use Rattle.words.specs.Reply.{mapped};
ghost use Rattle.why_no_word.specs.Answer.{counts_of};
ghost use Rattle.comparison.specs.Answers.{comparison_of};
ghost use Rattle.entries.specs.Entries.{eight, blank, no_entries, number_of, entries_of, letters_entries, length_entries};
ghost use Rattle.entries.specs.Entries.{comparison_number, comparison_entries};

use comparison::TableNo;
use why_no_word::Letters;
use words::No;

// Entries of an answer.
pub const ANSWER: usize = 8;

// The entries of an answer: those that none is said for are 0.
fn entries(place: usize, length: usize, terms: usize, same: usize, table: usize) -> [usize; ANSWER]
    ensures { result ≡ eight place length terms same table }
{
    [place, length, terms, same, table, 0, 0, 0]
}

// Tells a no that is about a table, or 0: its number, and its place.
fn tell_no(refusal: No, table: usize, answer: &mut [usize; ANSWER]) -> u8
    ensures value { result ≡ refusal.number }
    ensures answer_after { answer.new ≡ no_entries table refusal }
{
    *answer = entries(refusal.place, 0, 0, 0, table);
    refusal.number
}

// Tells a yes with these entries: 0.
fn tell_yes(length: usize, terms: usize, same: usize, answer: &mut [usize; ANSWER]) -> u8
    ensures value { result ≡ 0 }
    ensures answer_after { answer.new ≡ eight 0 length terms same 0 }
{
    *answer = entries(0, length, terms, same, 0);
    0
}

// Tells a word's length and terms, or the no.
pub fn tell_word(found: Result<Letters, No>, answer: &mut [usize; ANSWER]) -> u8
    ensures value { result ≡ number_of found }
    ensures answer_after { answer.new ≡ entries_of letters_entries (mapped counts_of found) }
{
    match found {
        Ok(letters) => tell_yes(letters.length, letters.terms, 0, answer),
        Err(refusal) => tell_no(refusal, 0, answer),
    }
}

// Tells how many bytes a call wrote to the front of the room, or the no.
pub fn tell_length(written: Result<usize, No>, answer: &mut [usize; ANSWER]) -> u8
    ensures value { result ≡ number_of written }
    ensures answer_after { answer.new ≡ entries_of length_entries written }
{
    match written {
        Ok(length) => tell_yes(length, 0, 0, answer),
        Err(refusal) => tell_no(refusal, 0, answer),
    }
}

// Tells a yes that holds nothing, that a text is a table or that a table is earliest; or the no.
pub fn tell_nothing(answered: Result<(), No>, answer: &mut [usize; ANSWER]) -> u8
    ensures value { result ≡ number_of answered }
    ensures answer_after { answer.new ≡ entries_of (λ _. blank) answered }
{
    match answered {
        Ok(()) => tell_yes(0, 0, 0, answer),
        Err(no) => tell_no(no, 0, answer),
    }
}

// Tells same or different, or the no with the table that it is about.
pub fn tell_comparison(compared: Result<bool, TableNo>, answer: &mut [usize; ANSWER]) -> u8
    ensures value { result ≡ comparison_number (comparison_of compared) }
    ensures answer_after { answer.new ≡ comparison_entries (comparison_of compared) }
{
    match compared {
        Ok(true) => tell_yes(0, 0, 1, answer),
        Ok(false) => tell_yes(0, 0, 0, answer),
        Err(about) => tell_no(about.refusal, usize::from(about.table), answer),
    }
}
