// Lists the exam file on standard input on standard output.
#![tactic(auto)]

ghost use Rattle.std.specs.Prelude.{◌≡◌, OnOk, IfSome, IsErrOf};
ghost use Rattle.std.specs.Io.KnownBytes.{Appends, Keeps};
ghost use Rattle.lister.specs.Output.{lister_output, lister_errors};

use std::io;
use std::io::{Read, Write};
use streams::Failure;

// Lists what was read, and writes the text or the refusal. 66 bytes and 23 for each of 1,024 slots are
// room for every text. (For what the packer has like it, see there.)
fn answer_input<O: Write, E: Write>(input: &[u8], output: &mut O, errors: &mut E) -> io::Result<()>
    ensures output { OnOk result
        (Appends (O.contents output.old) (O.contents output.new) (lister_output input.now)) }
    ensures errors { OnOk result
        (Appends (E.contents errors.old) (E.contents errors.new) (lister_errors input.now)) }
{
    let mut text = [0u8; 23618];
    match listing::list(input, &mut text) {
        Ok(length) => output.write_all(&text[..length]),
        Err(refusal) => streams::say_refused(errors, refusal.into()),
    }
}

// Lists all that there is to read, and writes the answer to it and nothing else. Where the input cannot
// be read, nothing is written. (The packer has a run of its own much like this one: a trait that says what
// the two answer would be longer than both.)
fn run<R: Read, O: Write, E: Write>(
    reader: &mut R,
    output: &mut O,
    errors: &mut E,
) -> Result<(), Failure>
    ensures output { OnOk result (IfSome (R.remaining reader.old) (λ input.
        Appends (O.contents output.old) (O.contents output.new) (lister_output input))) }
    ensures errors { OnOk result (IfSome (R.remaining reader.old) (λ input.
        Appends (E.contents errors.old) (E.contents errors.new) (lister_errors input))) }
    ensures unread { IsErrOf result Failure.Unread →
        Keeps (O.contents output.old) (O.contents output.new)
        × Keeps (E.contents errors.old) (E.contents errors.new) }
{
    // One byte more than it takes: that byte is the refusal, and nothing beyond it is read.
    let mut buffer = [0u8; 65537];
    let count = streams::read_input(reader, &mut buffer)?;
    answer_input(&buffer[..count], output, errors).map_err(|_| Failure::Unwritten)
}

fn main(rt: HostRuntime) -> io::Result<()> {
    match run(&mut rt.stdin(), &mut rt.stdout(), &mut rt.stderr()) {
        Ok(()) => Ok(()),
        Err(failure) => eprintln!(rt; "lister: {failure}"),
    }
}
