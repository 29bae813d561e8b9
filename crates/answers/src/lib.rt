// The lines that the programs answer, put into a lent buffer behind the bytes that wait there.
#![tactic(auto)]

ghost use Rattle.output.specs.Queue.{seen, TextPut};
ghost use Rattle.answers.specs.Lines.{no_line, letters_text, word_line, bytes_line};

use output::Out;

// Puts a refusal: "no", the numbers that tell it, each behind a blank, and a line feed.
pub fn put_no(numbers: &[u64], out: &mut Out)
    ensures { TextPut (no_line numbers.now) (seen out.old) (seen out.new) }
{
    out.put_all(b"no");
    for number in numbers {
        out.put(b' ');
        out.put_number(*number);
    }
    out.put(b'\n');
}

// Puts the letters of a word behind a blank, where there are any.
fn put_letters(letters: &[u8], out: &mut Out)
    ensures { TextPut (letters_text letters.now) (seen out.old) (seen out.new) }
{
    if letters.is_empty() {
        return;
    }
    out.put(b' ');
    out.put_hex(letters);
}

// Puts a word: "word", its length, its number of terms and its letters, and a line feed.
pub fn put_word(terms: usize, letters: &[u8], out: &mut Out)
    ensures { TextPut (word_line terms letters.now) (seen out.old) (seen out.new) }
{
    out.put_all(b"word ");
    out.put_number(letters.len() as u64);
    out.put(b' ');
    out.put_number(terms as u64);
    put_letters(letters, out);
    out.put(b'\n');
}

// Puts bytes behind what they are: its name, a blank, their digits, and a line feed.
pub fn put_bytes(name: &[u8], bytes: &[u8], out: &mut Out)
    ensures { TextPut (bytes_line name.now bytes.now) (seen out.old) (seen out.new) }
{
    out.put_all(name);
    out.put(b' ');
    out.put_hex(bytes);
    out.put(b'\n');
}
