// The form of the table text of a file or on standard input; or `no`, the number and the place.
#![tactic(auto)]

use output::Streams;

fn answer(to: Streams, text: &[u8]) {
    let mut room = [0u8; layout::TEXT];
    match fadurinko::form(text, &mut room) {
        Ok(length) => {
            output::print(to, output::front(&room, length));
        }
        Err(no) => {
            console::print_no(to, &[u64::from(no.number), no.place as u64]);
        }
    }
}

fn main(rt: HostRuntime) {
    let to = Streams {
        out: rt.stdout(),
        err: rt.stderr(),
    };
    // One byte more than a text may have, so that a longer one is seen to be too long.
    let mut text = [0u8; layout::TEXT + 1];
    let Some(n) = console::read_text(
        &rt,
        rt.stdin(),
        to,
        b"usage: form [FILE]: a table text, from FILE or standard input; answers its form's text or no NUMBER PLACE\n",
        &mut text,
    ) else {
        return;
    };
    answer(to, output::front(&text, n));
}
