// A stream looked through from left to right, with a count of open elements and nothing else kept: whether it is a record's, or 21,
// 22 or 23. A byte below `last` is a label, and `close` closes: ff in a stream; in tree bytes, all but the last, the last symbol.
#![tactic(auto)]

ghost use Rattle.std.specs.Prelude.{◌≡◌, true, ◌+◌, ◌<◌, ◌≤◌, ltb, length};
ghost use Rattle.records.specs.Counter.{marks, step#, ending#, marks_from, check_stream};
ghost use Rattle.stream_check.specs.StreamTold.{marks_told};

use words::No;

// How many elements are open behind a byte at `place`, before which so many are.
fn step(b: u8, last: u8, close: u8, elements: usize, place: usize) -> Result<usize, No>
    requires { (elements ≤ place) × (place < 18446744073709551615) }
    ensures { marks_told true result ≡ step# close last (marks elements (ltb 0 place)) place b }
{
    if b == close {
        return elements.checked_sub(1).ok_or(No { number: 22, place });
    }
    if last <= b {
        return Err(No { number: 21, place });
    }
    if elements == 0 && 0 < place {
        return Err(No { number: 23, place });
    }
    Ok(elements + 1)
}

// Goes on through a stream byte by byte.
fn go_exact(bytes: &[u8], last: u8, close: u8, elements: usize, place: usize) -> Result<usize, No>
    requires { (elements ≤ place) × (place + length bytes.now < 18446744073709551616) }
    ensures { marks_told (ltb 0 (place + length bytes.now)) result
        ≡ marks_from close last (marks elements (ltb 0 place)) place bytes.now }
{
    let mut now_open = elements;
    for (i, b) in bytes.iter().enumerate() {
        now_open = step(*b, last, close, now_open, place + i)?;
    }
    Ok(now_open)
}

// How many elements are open behind bytes at `place`, before which so many are; or the refusal. They are counted through, or gone
// through byte by byte where that is not sure.
pub fn go_on(bytes: &[u8], last: u8, close: u8, elements: usize, place: usize) -> Result<usize, No>
    requires { (elements ≤ place) × (place + length bytes.now < 18446744073709551616) }
    ensures { marks_told (ltb 0 (place + length bytes.now)) result
        ≡ marks_from close last (marks elements (ltb 0 place)) place bytes.now }
{
    if close < last {
        return go_exact(bytes, last, close, elements, place);
    }
    match stream_count::count_on(bytes, last, close, elements, place) {
        Some(open) => Ok(open),
        None => go_exact(bytes, last, close, elements, place),
    }
}

// The end of a stream at `place`: 22 there, if something is open or nothing was read.
pub fn at_end(elements: usize, place: usize) -> Result<(), No>
    ensures { result ≡ ending# elements (ltb 0 place) place }
{
    if elements == 0 && 0 < place {
        Ok(())
    } else {
        Err(No { number: 22, place })
    }
}

// Looks through a whole stream: that it is a record's, or the refusal.
pub fn check(bytes: &[u8], last: u8, close: u8) -> Result<(), No>
    ensures { result ≡ check_stream close last bytes.now }
{
    match go_on(bytes, last, close, 0, 0) {
        Ok(elements) => at_end(elements, bytes.len()),
        Err(no) => Err(no),
    }
}
