// Writing a file: an empty one, or one with a block more.
#![tactic(auto)]

ghost use Rattle.std.specs.Prelude.{◌≡◌, ◌+◌, ◌*◌, ◌≤◌};
ghost use lib.ListN.{length};
ghost use Rattle.std.proofs.lemmas.List.Edits.{sets};
ghost use Rattle.answers.specs.Refusals.{number_told};
ghost use Rattle.exam_rules.specs.File.{entry, entry_bytes, trailer_bytes};
ghost use Rattle.exam_rules.specs.Numbers.{create_number};
ghost use Rattle.exam_rules.specs.Calls.{made_told, Creates};
ghost use Rattle.exam_writing.specs.Inside.{Trails, Adding, Adds};

use answers::Refusal;
use exam_rules::Trailer;

// Writes the trailer of a file of a length, for an exam, at a place.
pub fn put_trailer(out: &mut [u8], at: usize, trailer: Trailer, exam: u64, length: usize)
    requires { (at + 32 ≤ lib.ListN.length out.old) × (trailer.entries ≤ 1024) }
    ensures { out.new ≡ sets out.old at (trailer_bytes trailer.edition trailer.t exam trailer.entries length) }
{
    words::copy_in(out, at, b"coil");
    words::put_bytes(out, at + 4, 2, trailer.edition as u64);
    words::put_bytes(out, at + 6, 2, trailer.t as u64);
    words::put_bytes(out, at + 8, 8, exam);
    words::put_bytes(out, at + 16, 4, (32 + 12 * trailer.entries) as u64);
    words::put_bytes(out, at + 20, 4, trailer.entries as u64);
    words::put_bytes(out, at + 24, 8, length as u64);
}

// Writes the trailer behind its directory. Answers the file's length.
pub fn end_file(out: &mut [u8], trailer: Trailer, exam: u64) -> usize
    requires { (trailer.start + 12 * trailer.entries + 32 ≤ length out.old) × (trailer.entries ≤ 1024) }
    ensures { Trails out.old trailer exam out.new result }
{
    let at = trailer.start + 12 * trailer.entries;
    let length = at + 32;
    put_trailer(out, at, trailer, exam, length);
    length
}

// Whether creating is refused, and why.
#[tactic(auto, using(std::proofs::lemmas::Bool::Decides::nat_tests), unfolding(exam_rules::specs::Numbers::create_number, answers::specs::Answers::unless, answers::specs::Answers::first_failure))]
fn check_create(exam: u64, t: u32, room: usize) -> Result<(), Refusal>
    ensures { number_told result ≡ create_number exam t room }
{
    if exam == 0 {
        return Err(Refusal::ExamNumber);
    }
    if 16 < t {
        return Err(Refusal::Trailer);
    }
    if room < 32 {
        return Err(Refusal::NoRoom);
    }
    Ok(())
}

// Creates an empty file for an exam at the start of a buffer. Answers its length.
pub fn create(file: &mut [u8], exam: u64, t: u32) -> Result<usize, Refusal>
    ensures { Creates file.old exam t (made_told result) file.new }
{
    check_create(exam, t, file.len())?;
    let trailer = Trailer {
        edition: 1,
        t: t as usize,
        entries: 0,
        start: 0,
    };
    Ok(end_file(file, trailer, exam))
}

// Writes a directory entry of 12 bytes at a place.
pub fn put_entry(out: &mut [u8], at: usize, slot: u32, offset: usize, size: usize)
    requires { at + 12 ≤ length out.old }
    ensures { out.new ≡ sets out.old at (entry_bytes (entry slot offset size)) }
{
    words::put_bytes(out, at, 4, slot as u64);
    words::put_bytes(out, at + 4, 4, offset as u64);
    words::put_bytes(out, at + 8, 4, size as u64);
}

// Puts a block at the old start of the directory of the file with this trailer, moves the directory up
// behind it, and adds an entry and the new trailer. Answers the new length.
pub fn add_block(file: &mut [u8], block: &[u8], trailer: Trailer, slot: u32, exam: u64) -> usize
    requires { Adding file.old block.now trailer }
    ensures { Adds file.old block.now trailer slot exam file.new result }
{
    let start = trailer.start;
    let size = block.len();
    let moved = start + size;
    let directory = 12 * trailer.entries;
    words::move_bytes(file, start, moved, directory);
    words::copy_in(file, start, block);
    put_entry(file, moved + directory, slot, start, size);
    let new_trailer = Trailer {
        entries: trailer.entries + 1,
        start: moved,
        ..trailer
    };
    end_file(file, new_trailer, exam)
}
