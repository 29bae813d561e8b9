// A stream counted through without a branch on whether a byte opens or closes, which no processor could foresee. It tells how many
// elements are open where it is sure: all bytes are labels or closes, and something is open before each but the first.
#![tactic(auto)]

ghost use Rattle.std.specs.Prelude.{◌≡◌, ◌+◌, ◌<◌, ◌≤◌, ltb, length, IfSome, Ok};
ghost use Rattle.records.specs.Counter.{marks, marks_from};
ghost use Rattle.stream_count.specs.Behind.{Beginning, end_behind, labels_behind};

// The index at which all would be closed if closes alone came: it stays at a close, and another byte puts it two further.
fn end_behind(b: u8, close: u8, end: usize) -> usize
    requires { end < 9223372036854775808 }
    ensures { result ≡ end_behind close b end }
{
    if b == close { end } else { end + 2 }
}

// A count of labels behind a byte.
fn labels_behind(b: u8, last: u8, labels: usize) -> usize
    requires { labels < 9223372036854775808 }
    ensures { result ≡ labels_behind last b labels }
{
    labels + usize::from(b < last)
}

// 1, if a stream begins here and its first byte is a label; else 0.
fn beginning(bytes: &[u8], last: u8, place: usize) -> usize
    ensures { Beginning last place bytes.now result }
{
    usize::from(place == 0 && bytes.first().is_some_and(|first| *first < last))
}

// How many elements are open behind bytes at `place`, before which so many are; where that is sure.
pub fn count_on(bytes: &[u8], last: u8, close: u8, elements: usize, place: usize) -> Option<usize>
    requires { (last ≤ close) × (elements ≤ place) × (place + length bytes.now < 18446744073709551616) }
    ensures { IfSome result (λ n. marks_from close last (marks elements (ltb 0 place)) place bytes.now
        ≡ Ok (marks n (ltb 0 (place + length bytes.now)))) }
{
    // So no sum below wraps.
    if usize::MAX / 4 < place + bytes.len() {
        return None;
    }
    let begun = beginning(bytes, last, place);
    let mut end = elements + 2 * begun;
    let mut labels = begun;
    // The condition asks for the index, and counting may begin behind the first byte: a range says both.
    for i in begun..bytes.len() {
        if i == end {
            return None;
        }
        end = end_behind(bytes[i], close, end);
        labels = labels_behind(bytes[i], last, labels);
    }
    if end == elements + 2 * labels {
        return Some(end - bytes.len());
    }
    None
}
