// Opening a file and finding a slot.
#![tactic(auto)]

ghost use Rattle.std.specs.Prelude.{◌≡◌, eqb, position};
ghost use Rattle.exam_rules.specs.Reading.{file_in};
ghost use Rattle.exam_rules.specs.Numbers.{trailer_number};
ghost use Rattle.exam_rules.specs.Calls.{trailer_of, opened_told, opened, Finds, located_told, located};
ghost use Rattle.exam_rules.specs.Inside.{entries_listed, Standing};
ghost use Rattle.exam_opening.specs.Inside.{PartOf};

use answers::{Refusal, number_told};
use exam_rules::{BlockPlace, Trailer};

// What the trailer of a file tells, where it keeps its rules.
#[tactic(auto, using(exam_rules::proofs::Opens::trails))]
pub fn trailer(file: &[u8]) -> Trailer
    requires { trailer_number file.now ≡ 0 }
    ensures { result ≡ trailer_of (file_in file.now) }
{
    let at = file.len() - 32;
    Trailer {
        edition: words::get_bytes(file, at + 4, 2) as usize,
        t: words::get_bytes(file, at + 6, 2) as usize,
        entries: words::get_bytes(file, at + 20, 4) as usize,
        start: file.len() - words::get_bytes(file, at + 16, 4) as usize,
    }
}

// Opens the file in the first bytes of a buffer, for its own exam number.
pub fn open(file: &[u8], length: usize, exam: u64) -> Result<Trailer, Refusal>
    ensures { opened_told result ≡ opened file.now length exam }
{
    exam_checking::check_open_in(file, length, exam)?;
    Ok(trailer(&file[..length]))
}

// Where a slot stands among the entries of a directory, if it is there.
fn index_of(directory: &[u8], slot: u32) -> Option<usize>
    ensures { result ≡ position (λ e. eqb e.slot slot) (entries_listed directory.now) }
{
    directory
        .chunks_exact(12)
        .position(|entry| words::get_bytes(entry, 0, 4) == slot as u64)
}

// Where the block of a slot stands in a file, and its entry among the entries. (From start to end, for those
// who take the part; `BlockPlace` has offset and size, as C is told them.)
#[derive(Clone, Copy)]
pub struct Part {
    pub index: usize,
    pub start: usize,
    pub end: usize,
}

// Finds a slot in a file that is open.
#[tactic(auto, using(crate::proofs::Finding::directory_ends))]
pub fn part_of(file: &[u8], trailer: Trailer, slot: u32) -> Result<Part, Refusal>
    requires { Standing file.now trailer }
    ensures { PartOf file.now slot result }
{
    let directory = &file[trailer.start..file.len() - 32];
    let index = index_of(directory, slot).ok_or(Refusal::NoSuchSlot)?;
    let entry = &directory[12 * index..];
    let offset = words::get_bytes(entry, 4, 4) as usize;
    let size = words::get_bytes(entry, 8, 4) as usize;
    Ok(Part {
        index,
        start: offset,
        end: offset + size,
    })
}

// The block of a slot, as a part of the file; an empty part where it is refused. Its number goes
// into `number`, refused or not. `locate` answers a Result; here the rules ask for an empty part and a lent
// number, so that a caller in C is handed the block itself and nothing is copied.
pub fn find<'a>(file: &'a [u8], length: usize, exam: u64, slot: u32, number: &mut u32) -> &'a [u8]
    ensures { Finds file.now length exam slot result.now number.new }
{
    let opened = open(file, length, exam);
    let Ok(trailer) = opened else {
        *number = number_told(&opened);
        return &file[..0];
    };
    let whole = &file[..length];
    let found = part_of(whole, trailer, slot);
    let Ok(part) = found else {
        *number = number_told(&found);
        return &file[..0];
    };
    *number = 0;
    &whole[part.start..part.end]
}

// Where the block of a slot stands in the file, for a caller that cannot be handed a part of it.
pub fn locate(file: &[u8], length: usize, exam: u64, slot: u32) -> Result<BlockPlace, Refusal>
    ensures { located_told result ≡ located file.now length exam slot }
{
    let trailer = open(file, length, exam)?;
    let part = part_of(&file[..length], trailer, slot)?;
    Ok(BlockPlace {
        offset: part.start,
        size: part.end - part.start,
    })
}
