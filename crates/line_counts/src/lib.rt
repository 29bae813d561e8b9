// How often each thing was counted, in numbers that stay at the largest one where they would pass it, and
// the line that says it, put into a lent buffer behind the bytes that wait there.
#![tactic(auto)]

ghost use Rattle.std.specs.Prelude.{◌≡◌, ◌+◌, set, get_or};
ghost use Rattle.output.specs.Queue.{seen, TextPut};
ghost use Rattle.line_counts.specs.Counts.{capped, sum};
ghost use Rattle.line_counts.specs.Closing.{refused_text, refused_texts, strange_text, counts_line};

use output::Out;

// Counts one more at a place; nothing where there is no such place.
pub fn raise(counts: &mut [u64], at: usize)
    ensures { counts.new ≡ set counts.old at (capped (get_or counts.old at 0 + 1)) }
{
    if at < counts.len() {
        counts[at] = counts[at].saturating_add(1);
    }
}

// All that was counted.
pub fn total(counts: &[u64]) -> u64
    ensures { result ≡ capped (sum counts.now) }
{
    let mut all: u64 = 0;
    for count in counts {
        all = all.saturating_add(*count);
    }
    all
}

// Puts how many lines were refused by a number, where there are any.
fn put_refused(number: u64, count: u64, out: &mut Out)
    ensures { TextPut (refused_text number count) (seen out.old) (seen out.new) }
{
    if count == 0 {
        return;
    }
    out.put_all(b", no ");
    out.put_number(number);
    out.put_all(b": ");
    out.put_number(count);
}

// Puts how many lines were refused by each number from 1 on.
fn put_all_refused(counts: &[u64], out: &mut Out)
    ensures { TextPut (refused_texts counts.now) (seen out.old) (seen out.new) }
{
    for (i, count) in counts.iter().enumerate() {
        put_refused(i as u64 + 1, *count, out);
    }
}

// Puts how many lines were no hexadecimal, where there are any.
fn put_strange(count: u64, out: &mut Out)
    ensures { TextPut (strange_text count) (seen out.old) (seen out.new) }
{
    if count == 0 {
        return;
    }
    out.put_all(b", not hex: ");
    out.put_number(count);
}

// Puts what became of all lines: how many were answered with what has this name, refused by each number
// from 1 on, or no hexadecimal.
pub fn put_counts(
    lines: u64,
    name: &[u8],
    answered: u64,
    refused: &[u64],
    strange: u64,
    out: &mut Out,
)
    ensures { TextPut (counts_line lines name.now answered refused.now strange) (seen out.old) (seen out.new) }
{
    out.put_number(lines);
    out.put_all(b" lines: ");
    out.put_number(answered);
    out.put(b' ');
    out.put_all(name);
    put_all_refused(refused, out);
    put_strange(strange, out);
    out.put(b'\n');
}
