// The bytes that a program is given, as many as a buffer holds: an argument, the front of a file or
// of standard input. Nothing here takes memory.
#![tactic(auto)]

ghost use Rattle.std.specs.Prelude.{◌≡◌, ◌<◌, ◌≤◌, length, take, IfSome, OnOk};
ghost use Rattle.std.specs.Io.KnownBytes.{Consumes, IsAtEnd};

use std::env::FillError;
use std::fs::File;
use std::io;
use std::io::{Cursor, ErrorKind, Print, Read, Write};
use std::rt::{Env, Files};
use std::str::from_utf8;

// Puts the argument i at the start of out and answers its length, or none where there is no such
// argument. One that is longer than out counts as an empty one.
pub fn argument(env: &impl Env, i: usize, out: &mut [u8]) -> Option<usize>
    ensures { IfSome result (λ n. n ≤ length out.new) }
{
    match env.arg(i, out) {
        Ok(n) => Some(n),
        Err(FillError::TooLong) => Some(0),
        Err(FillError::NotPresent) => None,
    }
}

// Reads until out is full, the input ends or a read fails, and answers how many bytes it put at the
// start of out, and whether a read failed.
pub fn read_full<R: Read>(from: &mut R, out: &mut [u8]) -> (usize, io::Result<()>)
    ensures in_range { result.0 ≤ length out.new }
    ensures bytes { Consumes (R.remaining from.old) (R.remaining from.new) (take result.0 out.new) }
    ensures full_or_end { OnOk result.1 (result.0 < length out.new → IsAtEnd (R.remaining from.new)) }
{
    let mut done: usize = 0;
    while done < out.len() {
        match from.read(&mut out[done..]) {
            Ok(0) => return (done, Ok(())),
            Ok(n) => done += n,
            Err(error) => return (done, Err(error)),
        }
    }
    (done, Ok(()))
}

// Reads the file at a path until out is full, the file ends or a read fails, and answers how many
// bytes it put at the start of out; or none where the file can't be opened, and then standard error
// says why.
pub fn read_file(
    files: &impl Files,
    errors: &impl Print,
    path: &[u8],
    out: &mut [u8],
) -> Option<usize>
    ensures { IfSome result (λ n. n ≤ length out.new) }
{
    let mut file = open(files, path)
        .inspect_err(|error| tell(errors, path, error))
        .ok()?;
    let (n, _) = read_full(&mut file, out);
    Some(n)
}

// The file at a path, open for reading. Only a path that is text can be opened.
fn open<F: Files>(files: &F, path: &[u8]) -> io::Result<F::File> {
    let Ok(path) = from_utf8(path) else {
        return Err(io::Error::new(ErrorKind::InvalidInput, "the path is not UTF-8"));
    };
    File::open(files, path)
}

// Writes a line: what failed, a colon and the system's words for the error. Where the line can't be
// written, there is nowhere left to say so.
fn tell(errors: &impl Print, what: &[u8], error: &io::Error) {
    let mut text = Cursor::new([0u8; 128]);
    let _ = write!(text, "{error}");
    let n = (text.position() as usize).min(128);
    let bytes = text.into_inner();
    let _ = errors.write_all(what);
    let _ = errors.write_all(b": ");
    let _ = errors.write_all(words_of(&bytes[..n]));
    let _ = errors.write_all(b"\n");
}

// An error's text without the system's number of it, which stands behind the words.
fn words_of(text: &[u8]) -> &[u8]
    ensures { take (length result.now) text.now ≡ result.now }
{
    let text = from_utf8(text).unwrap_or("");
    match text.split_once(" (os error ") {
        Some((words, _)) => words.as_bytes(),
        None => text.as_bytes(),
    }
}

#[cfg(test)]
mod tests {
    use super::*;

    // Gives a byte at each read, as many as it holds, and then fails.
    #[derive(Drop)]
    struct Broken(u8);

    impl Read for Broken {
        fn read(&mut self, out: &mut [u8]) -> io::Result<usize> {
            if self.0 == 0 {
                return Err(io::Error::from(ErrorKind::Other));
            }
            let [first, ..] = out else {
                return Ok(0);
            };
            *first = self.0;
            self.0 -= 1;
            Ok(1)
        }
    }

    #[test]
    fn keeps_what_came_before_a_failure(rt: HostRuntime) {
        let mut out = [9u8; 5];
        let (n, read) = read_full(&mut Broken(3), &mut out);
        assert_eq!(rt; n, 3);
        assert!(rt; read.is_err());
        assert_eq!(rt; out.as_slice(), [3, 2, 1, 9, 9].as_slice());
    }

    #[test]
    fn leaves_what_has_no_room(rt: HostRuntime) {
        let mut from: &[u8] = b"abcdef";
        let mut out = [0u8; 4];
        let (n, _) = read_full(&mut from, &mut out);
        assert_eq!(rt; n, 4);
        assert_eq!(rt; out.as_slice(), b"abcd".as_slice());
        assert_eq!(rt; from, b"ef".as_slice());
        let (n, read) = read_full(&mut from, &mut out);
        assert_eq!(rt; n, 2);
        assert!(rt; read.is_ok());
    }

    #[test]
    fn drops_the_number_of_an_error(rt: HostRuntime) {
        let text = b"No such file or directory (os error 2)";
        assert_eq!(rt; words_of(text), b"No such file or directory".as_slice());
        assert_eq!(rt;
            words_of(b"the path is not UTF-8"),
            b"the path is not UTF-8".as_slice()
        );
    }
}
