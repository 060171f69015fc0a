// Packs the words on standard input into one block on standard output.
#![tactic(auto)]

mod packing;

ghost use Rattle.std.specs.Prelude.{◌≡◌, OnOk, IfSome, IsErrOf};
ghost use Rattle.std.specs.Io.KnownBytes.{Appends, Keeps};
ghost use Rattle.packer.specs.Output.{packer_output, packer_errors};

use std::io;
use std::io::{Read, Write};
use streams::Failure;

// Packs what was read, and writes the block or the refusal. (As the lister has it for its text: a function
// for both would be longer than these, and would take output and errors apart from what they are for.)
fn answer_input<O: Write, E: Write>(input: &[u8], output: &mut O, errors: &mut E) -> io::Result<()>
    ensures output { OnOk result
        (Appends (O.contents output.old) (O.contents output.new) (packer_output input.now)) }
    ensures errors { OnOk result
        (Appends (E.contents errors.old) (E.contents errors.new) (packer_errors input.now)) }
{
    let mut fcm = [0; 1024];
    let mut dfcm = [0; 1024];
    // Room for the worst block of 4,096 words.
    let mut out = [0u8; 34824];
    match packing::pack_input(input, &mut fcm, &mut dfcm, &mut out) {
        Ok(length) => output.write_all(&out[..length]),
        Err(refusal) => streams::say_refused(errors, refusal.into()),
    }
}

// Packs all that there is to read, and writes the answer to it and nothing else. Where the input cannot
// be read, nothing is written. (The lister has a run of its own much like this one: a trait that says what
// the two answer would be longer than both.)
fn run<R: Read, O: Write, E: Write>(
    reader: &mut R,
    output: &mut O,
    errors: &mut E,
) -> Result<(), Failure>
    ensures output { OnOk result (IfSome (R.remaining reader.old) (λ input.
        Appends (O.contents output.old) (O.contents output.new) (packer_output input))) }
    ensures errors { OnOk result (IfSome (R.remaining reader.old) (λ input.
        Appends (E.contents errors.old) (E.contents errors.new) (packer_errors input))) }
    ensures unread { IsErrOf result Failure.Unread →
        Keeps (O.contents output.old) (O.contents output.new)
        × Keeps (E.contents errors.old) (E.contents errors.new) }
{
    // One byte more than it takes: that byte is the refusal, and nothing beyond it is read.
    let mut buffer = [0u8; 32769];
    let count = streams::read_input(reader, &mut buffer)?;
    answer_input(&buffer[..count], output, errors).map_err(|_| Failure::Unwritten)
}

fn main(rt: HostRuntime) -> io::Result<()> {
    match run(&mut rt.stdin(), &mut rt.stdout(), &mut rt.stderr()) {
        Ok(()) => Ok(()),
        Err(failure) => eprintln!(rt; "packer: {failure}"),
    }
}
