// Fetching the words of a slot.
#![tactic(auto)]

ghost use Rattle.std.specs.Prelude.{◌≡◌, ◌≤◌};
ghost use Rattle.answers.specs.Refusals.{number_told};
ghost use Rattle.block_rules.specs.Calls.{unpacked_told};
ghost use Rattle.exam_rules.specs.Numbers.{found_number};
ghost use Rattle.exam_rules.specs.Calls.{Fetches};
ghost use Rattle.exam_rules.specs.Inside.{Standing};
ghost use Rattle.exam_fetching.specs.Inside.{FetchesOpened};

use answers::Refusal;
use exam_rules::Trailer;

// Refuses a block that is found, but whose words cannot be fetched.
#[tactic(auto, using(std::proofs::lemmas::Bool::Decides::nat_tests), unfolding(exam_rules::specs::Numbers::found_number, block_rules::specs::Calls::checked, answers::specs::Answers::unless, answers::specs::Answers::first_failure, answers::specs::Answers::afterwards))]
fn check_fetch(block: &[u8], t: usize, fcm: usize, dfcm: usize, room: usize) -> Result<(), Refusal>
    ensures { number_told result ≡ found_number 0 block.now t fcm dfcm room }
{
    exam_checking::check_file_tables(t, fcm, dfcm)?;
    let count = block_checking::check(block)?;
    if room < count {
        return Err(Refusal::NoRoom);
    }
    Ok(())
}

// Fetches the words of a slot from a file that is open, with both tables cleared first.
fn fetch_opened(
    file: &[u8],
    trailer: Trailer,
    slot: u32,
    fcm: &mut [u64],
    dfcm: &mut [u64],
    words: &mut [u64],
) -> Result<usize, Refusal>
    requires { Standing file.now trailer }
    ensures { FetchesOpened file.now slot fcm.old dfcm.old words.old (unpacked_told result) fcm.new dfcm.new words.new }
{
    let part = exam_opening::part_of(file, trailer, slot)?;
    let block = &file[part.start..part.end];
    check_fetch(block, trailer.t, fcm.len(), dfcm.len(), words.len())?;
    Ok(block_unpacking::unpack_all(block, fcm, dfcm, words))
}

// Fetches the words of a slot. Answers how many they are.
pub fn fetch(
    file: &[u8],
    length: usize,
    exam: u64,
    slot: u32,
    fcm: &mut [u64],
    dfcm: &mut [u64],
    words: &mut [u64],
) -> Result<usize, Refusal>
    ensures { Fetches file.now length exam slot fcm.old dfcm.old words.old (unpacked_told result) fcm.new dfcm.new words.new }
{
    let opened = exam_opening::open(file, length, exam);
    // The rules name this form for an opening, in `find`, `fetch` and `append`; elsewhere `?` hands a refusal on.
    let Ok(trailer) = opened else {
        return Err(opened.unwrap_err());
    };
    fetch_opened(&file[..length], trailer, slot, fcm, dfcm, words)
}
