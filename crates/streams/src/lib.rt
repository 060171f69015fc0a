// What a program reads, and what it says of a refusal. A read that fails is not the end of the input, so
// the two are told apart.
#![tactic(auto)]

ghost use Rattle.std.specs.Prelude.{◌≡◌, ◌<◌, ◌≤◌, take, length, OnOk, IfOk, IfErr, Some};
ghost use Rattle.std.specs.Io.KnownBytes.{Appends, Consumes, IsAtEnd};
ghost use Rattle.streams.specs.Failures.{failure_text};
ghost use Rattle.streams.specs.Refusal.{refusal};

use std::error::Error;
use std::io::{Read, Write};
use std::{fmt, io};

// What ends a program with no answer: a read or a write that failed.
#[derive(Clone, Copy, Debug, PartialEq, Eq)]
pub enum Failure {
    Unread,
    Unwritten,
}

impl fmt::Display for Failure {
    ghost output = { λ failure. Some (failure_text failure) };

    fn fmt<W: fmt::Write>(&self, f: &mut fmt::Formatter<W>) -> fmt::Result {
        match self {
            Failure::Unread => f.write_str("the input could not be read"),
            Failure::Unwritten => f.write_str("the output could not be written"),
        }
    }
}

impl Error for Failure {}

// Reads into the start of a buffer until the input ends or the buffer is full. Answers how many bytes
// came. Where a read fails nothing is counted: no part may be taken for the whole. (A `while`, since a
// read brings any number of bytes; `read_to_end` would ask for memory and say little after a failure.)
pub fn read_input<R: Read>(reader: &mut R, buffer: &mut [u8]) -> Result<usize, Failure>
    ensures within { IfOk result (λ count. count ≤ length buffer.new) }
    ensures bytes { IfOk result (λ count.
        Consumes (R.remaining reader.old) (R.remaining reader.new) (take count buffer.new)) }
    ensures end { IfOk result (λ count. count < length buffer.new →
        IsAtEnd (R.remaining reader.new)) }
    ensures failed { IfErr result (λ failure. failure ≡ Failure.Unread) }
{
    let mut count: usize = 0;
    while count < buffer.len() {
        let Ok(got) = reader.read(&mut buffer[count..]) else {
            return Err(Failure::Unread);
        };
        if got == 0 {
            return Ok(count);
        }
        count += got;
    }
    Ok(count)
}

// Says a refusal's number. (Any number, as the test `says_what_happened` gives it.)
pub fn say_refused<W: Write>(writer: &mut W, number: u32) -> io::Result<()>
    ensures { OnOk result (Appends (W.contents writer.old) (W.contents writer.new) (refusal number)) }
{
    writeln!(writer, "refused {number}")
}

#[cfg(test)]
mod tests {
    use super::*;

    // Gives a byte at each of so many reads, and then fails.
    #[derive(Drop)]
    struct Failing {
        reads: usize,
    }

    impl Read for Failing {
        fn read(&mut self, buf: &mut [u8]) -> io::Result<usize> {
            if self.reads == 0 {
                return Err(io::Error::from(io::ErrorKind::Other));
            }
            if buf.is_empty() {
                return Ok(0);
            }
            self.reads -= 1;
            buf[0] = b'x';
            Ok(1)
        }
    }

    #[test]
    fn reads_to_the_end(rt: HostRuntime) {
        let mut reader: &[u8] = b"abcde";
        let mut buffer = [0u8; 8];
        let input = read_input(&mut reader, &mut buffer);
        assert_eq!(rt; input, Ok(5));
        assert_eq!(rt; &buffer, b"abcde\0\0\0");
    }

    #[test]
    fn reads_no_more_than_the_buffer(rt: HostRuntime) {
        let mut reader: &[u8] = b"abcde";
        let mut buffer = [0u8; 4];
        let input = read_input(&mut reader, &mut buffer);
        assert_eq!(rt; input, Ok(4));
        assert_eq!(rt; &buffer, b"abcd");
        assert_eq!(rt; reader, b"e".as_slice());
    }

    #[test]
    fn tells_a_read_that_fails(rt: HostRuntime) {
        let mut buffer = [0u8; 4];
        let unread = Err(Failure::Unread);
        for (reads, input) in [(0, unread), (3, unread), (4, Ok(4))] {
            let mut reader = Failing { reads };
            let got = read_input(&mut reader, &mut buffer);
            assert_eq!(rt; got, input, "after {reads} reads");
        }
    }

    #[test]
    fn says_what_happened(rt: HostRuntime) -> io::Result<()> {
        let mut said = Vec::new(rt.alloc());
        say_refused(&mut said, 4)?;
        say_refused(&mut said, u32::MAX)?;
        write!(said, "{}, {}", Failure::Unread, Failure::Unwritten)?;
        let want = b"refused 4\nrefused 4294967295\n\
            the input could not be read, the output could not be written";
        assert_eq!(rt; said.as_slice(), want.as_slice());
        Ok(())
    }
}
