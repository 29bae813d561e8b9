// What the programs share: reading a text, printing an answer, saying what a program wants.
#![tactic(auto)]

mod usage;

ghost use Rattle.std.specs.Prelude.{◌≤◌, length, take, IfOk, IfSome};
ghost use Rattle.std.specs.Io.KnownBytes.{Consumes, ReadConsumes};

use output::{Out, Streams};
use std::env::{Env, FillError};
use std::fs::{File, Files};
use std::io;
use std::io::{Error, ErrorKind, IsTerminal, Read, Stdin};
pub use usage::started_with;
use usage::{arg_count, tell};

// Reads once, and answers how many bytes it put at the start of buf: none where the input has ended.
pub fn read_some<R: Read>(from: &mut R, buf: &mut [u8]) -> io::Result<usize>
    ensures few { IfOk result (λ n. n ≤ length buf.old) }
    ensures bytes { ReadConsumes (R.remaining from.old) (R.remaining from.new) result buf.new }
{
    from.read(buf)
}

// Reads until buf is full or the input ends, and answers how many bytes it put at the start of buf.
pub fn read_all<R: Read>(from: &mut R, buf: &mut [u8]) -> io::Result<usize>
    ensures few { IfOk result (λ n. n ≤ length buf.old) }
    ensures bytes { IfOk result (λ n. Consumes (R.remaining from.old) (R.remaining from.new) (take n buf.new)) }
{
    let mut n = 0;
    // How many bytes a turn takes is known only in it, so no range or iterator has the turns.
    while n < buf.len() {
        match read_some(from, &mut buf[n..])? {
            0 => break,
            more => n += more,
        }
    }
    Ok(n)
}

// Says on standard error what failed and why and, in the next line, what the program wants.
fn complain(to: Streams, what: &[u8], why: &Error, usage: &[u8]) {
    output::fail(to, what, why);
    output::say(to, usage);
}

// Reads the file with this name, which std takes where it is text in UTF-8.
fn read_path<R: Files>(rt: &R, path: &[u8], buf: &mut [u8]) -> io::Result<usize>
    ensures { IfOk result (λ n. n ≤ length buf.old) }
{
    match str::from_utf8(path) {
        Ok(path) => {
            let mut file = File::open(rt, path)?;
            read_all(&mut file, buf)
        }
        Err(_) => Err(Error::from(ErrorKind::InvalidFilename)),
    }
}

// Reads the file with this name, or complains.
fn read_named<R: Files>(
    rt: &R,
    to: Streams,
    path: &[u8],
    usage: &[u8],
    buf: &mut [u8],
) -> Option<usize>
    ensures { IfSome result (λ n. n ≤ length buf.old) }
{
    match read_path(rt, path, buf) {
        Ok(n) => Some(n),
        Err(why) => {
            complain(to, path, &why, usage);
            None
        }
    }
}

// The system's numbers of "Invalid argument" and "File name too long": std's ErrorKind has other texts, and the programs say these.
const EINVAL: i32 = 22;

const ENAMETOOLONG: i32 = 36;

// Why there is no file's name.
fn no_name(why: FillError) -> Error {
    match why {
        FillError::NotPresent => Error::from_raw_os_error(EINVAL),
        FillError::TooLong => Error::from_raw_os_error(ENAMETOOLONG),
    }
}

// Reads the file that argument i names, or complains.
pub fn read_file<R: Env + Files>(
    rt: &R,
    to: Streams,
    i: usize,
    usage: &[u8],
    buf: &mut [u8],
) -> Option<usize>
    ensures { IfSome result (λ n. n ≤ length buf.old) }
{
    let mut path = [0u8; 4096];
    match rt.arg(i, &mut path) {
        Ok(n) => read_named(rt, to, output::front(&path, n), usage, buf),
        Err(why) => {
            complain(to, b"a file's name", &no_name(why), usage);
            None
        }
    }
}

// Reads standard input; says on standard error where that fails.
fn read_standard(mut from: Stdin, to: Streams, buf: &mut [u8]) -> Option<usize>
    ensures { IfSome result (λ n. n ≤ length buf.old) }
{
    match read_all(&mut from, buf) {
        Ok(n) => Some(n),
        Err(why) => {
            output::fail(to, b"standard input", &why);
            None
        }
    }
}

// Reads the one text that a program wants: the file that its argument names or, without one,
// standard input. Where nobody could have given a text, says what the program wants.
pub fn read_text<R: Env + Files>(
    rt: &R,
    from: Stdin,
    to: Streams,
    usage: &[u8],
    buf: &mut [u8],
) -> Option<usize>
    ensures { IfSome result (λ n. n ≤ length buf.old) }
{
    if arg_count(rt) < 2 {
        if !from.is_terminal() {
            return read_standard(from, to, buf);
        }
        tell(&to.err, usage);
        return None;
    }
    if started_with(rt, to, 1, usage) {
        return read_file(rt, to, 1, usage, buf);
    }
    None
}

// Prints a refusal by itself.
pub fn print_no(to: Streams, numbers: &[u64]) {
    let mut bytes = [0u8; 4096];
    let mut out = Out::new(to, &mut bytes);
    answers::put_no(numbers, &mut out);
    out.flush();
}
