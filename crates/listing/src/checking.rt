// The checks of a file that is to be listed.
ghost use Rattle.std.specs.Prelude.{◌≡◌, IfOk};
ghost use Rattle.answers.specs.Refusals.{number_told};
ghost use Rattle.exam_rules.specs.File.{block_of};
ghost use Rattle.exam_rules.specs.Reading.{entry_at, file_in};
ghost use Rattle.exam_rules.specs.Inside.{Standing};
ghost use Rattle.listing.specs.Numbers.{blocks_number, list_number};
ghost use Rattle.listing.specs.Inside.{Points, Directory};

use answers::Refusal;
use exam_rules::Trailer;

// The block that an entry tells of, as a part of the file.
pub fn block_of<'a>(file: &'a [u8], entry: &[u8]) -> &'a [u8]
    requires { Points file.now entry.now }
    ensures { result.now ≡ block_of (file_in file.now) (entry_at entry.now 0) }
{
    let offset = words::get_bytes(entry, 4, 4) as usize;
    let end = offset + words::get_bytes(entry, 8, 4) as usize;
    &file[offset..end]
}

// Checks all blocks, in file order.
fn check_blocks(file: &[u8], directory: &[u8]) -> Result<(), Refusal>
    requires { Directory file.now directory.now }
    ensures { number_told result ≡ blocks_number (file_in file.now) (file_in file.now).entries }
{
    for entry in directory.chunks_exact(12) {
        block_checking::check(block_of(file, entry))?;
    }
    Ok(())
}

// Refuses a file that cannot be listed. The exam number is the trailer's own. A file under 32 bytes has
// none to read, and is refused as opening would refuse it.
pub fn check_list(file: &[u8], room: usize) -> Result<Trailer, Refusal>
    ensures number { number_told result ≡ list_number file.now room }
    ensures opened { IfOk result (λ trailer. Standing file.now trailer) }
{
    let length = file.len();
    if 65536 < length {
        return Err(Refusal::NoRoom);
    }
    if length < 32 {
        return Err(Refusal::TooShort);
    }
    let end = length - 32;
    let exam = words::get_bytes(file, end + 8, 8);
    let trailer = exam_opening::open(file, length, exam)?;
    check_blocks(file, &file[trailer.start..end])?;
    if room < 66 + 23 * trailer.entries {
        return Err(Refusal::NoRoom);
    }
    Ok(trailer)
}
