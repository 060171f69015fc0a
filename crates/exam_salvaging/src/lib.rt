// Salvaging a file without its end: a new file of the blocks that stand whole at the start of the old
// bytes.
#![tactic(auto)]

ghost use Rattle.std.specs.Prelude.{◌≡◌, ◌≤◌, length, drop};
ghost use Rattle.std.proofs.lemmas.List.Edits.{sets};
ghost use Rattle.answers.specs.Refusals.{number_told};
ghost use Rattle.exam_rules.specs.File.{directory_bytes};
ghost use Rattle.exam_rules.specs.Pieces.{entries_of};
ghost use Rattle.exam_rules.specs.Salvage.{whole_blocks, numbered};
ghost use Rattle.exam_rules.specs.Numbers.{salvage_number};
ghost use Rattle.exam_rules.specs.Calls.{salvaged_told, Salvages};
ghost use Rattle.exam_salvaging.specs.Inside.{standing_size, FoundIn, new_length, Listing, Rebuilding, Rebuilds};

use answers::Refusal;
use exam_rules::{SalvagedFile, Trailer};

// The blocks that stand whole at the start of bytes: how many they are, and where the last one ends.
#[derive(Clone, Copy)]
pub struct Found {
    pub kept: usize,
    pub end: usize,
}

// The size of the block that stands whole at the start of bytes, where one does.
fn standing_size(bytes: &[u8]) -> Option<usize>
    ensures { result ≡ standing_size bytes.now }
{
    if bytes.len() < 8 {
        return None;
    }
    let size = words::get_bytes(bytes, 4, 4) as usize;
    if bytes.len() < size {
        return None;
    }
    if block_checking::check(&bytes[..size]).is_err() {
        return None;
    }
    Some(size)
}

// Takes blocks from the start on while one stands whole, up to 1,024.
fn find_blocks(old: &[u8]) -> Found
    ensures { FoundIn old.now result }
{
    let mut end = 0;
    for kept in 0..1024 {
        let Some(size) = standing_size(&old[end..]) else {
            return Found { kept, end };
        };
        end += size;
    }
    Found { kept: 1024, end }
}

// Whether salvaging is refused, and why. The new length is not added up before its largest part is known
// to be small, since old bytes may be of any length.
#[tactic(auto, using(std::proofs::lemmas::Bool::Decides::nat_tests), unfolding(exam_rules::specs::Numbers::salvage_number, answers::specs::Answers::unless, answers::specs::Answers::first_failure))]
fn check_salvage(exam: u64, t: u32, found: Found, room: usize) -> Result<(), Refusal>
    requires { found.kept ≤ 1024 }
    ensures { number_told result ≡ salvage_number exam t (new_length found.kept found.end) room }
{
    if exam == 0 {
        return Err(Refusal::ExamNumber);
    }
    if 16 < t {
        return Err(Refusal::Trailer);
    }
    if 16777216 < found.end {
        return Err(Refusal::NoRoom);
    }
    let length = found.end + 12 * found.kept + 32;
    if 16777216 < length {
        return Err(Refusal::NoRoom);
    }
    if room < length {
        return Err(Refusal::NoRoom);
    }
    Ok(())
}

// Writes the entries of n blocks at a place: slots from 0 up, and for each block where it starts and the
// length that it states.
fn put_entries(file: &mut [u8], old: &[u8], at: usize, n: usize)
    requires { Listing file.old old.now at n }
    ensures { file.new ≡ sets file.old at (directory_bytes (entries_of 0 (numbered 0 (whole_blocks 1024 old.now)))) }
{
    let mut offset = 0;
    // By number: no law tells what stands in the bytes once `chunks_exact_mut` has lent them out.
    for i in 0..n {
        let size = words::get_bytes(old, offset + 4, 4) as usize;
        exam_writing::put_entry(file, at + 12 * i, i as u32, offset, size);
        offset += size;
    }
}

// Writes the new file: the blocks as they stood, an entry for each, the trailer. Answers its length.
fn rebuild(file: &mut [u8], old: &[u8], found: Found, exam: u64, t: u32) -> usize
    requires { Rebuilding file.old old.now found }
    ensures { Rebuilds file.old old.now exam t file.new result }
{
    let end = found.end;
    words::copy_in(file, 0, &old[..end]);
    put_entries(file, old, end, found.kept);
    let trailer = Trailer {
        edition: 1,
        t: t as usize,
        entries: found.kept,
        start: end,
    };
    exam_writing::end_file(file, trailer, exam)
}

// Makes a new file of the blocks that stand whole at the start of old bytes. The old slot numbers are
// lost with the directory, so the slots are numbered from 0.
pub fn salvage(old: &[u8], file: &mut [u8], exam: u64, t: u32) -> Result<SalvagedFile, Refusal>
    ensures { Salvages old.now file.old exam t (salvaged_told result) file.new }
{
    let found = find_blocks(old);
    check_salvage(exam, t, found, file.len())?;
    let length = rebuild(file, old, found, exam, t);
    Ok(SalvagedFile {
        length,
        kept: found.kept,
        left_over: old.len() - found.end,
        renumbered: true,
    })
}
