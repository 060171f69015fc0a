// Appending a slot.
#![tactic(auto)]

ghost use Rattle.std.specs.Prelude.{◌≡◌, ◌≤◌};
ghost use Rattle.answers.specs.Refusals.{number_told};
ghost use Rattle.exam_rules.specs.Numbers.{next_slot, append_number};
ghost use Rattle.exam_rules.specs.Calls.{opened, Done, made_told, Appends};
ghost use Rattle.exam_rules.specs.Inside.{entries_listed};

use answers::Refusal;
use exam_rules::Trailer;

// The lowest slot that may come after the entries of a directory.
fn next_slot(directory: &[u8]) -> u64
    ensures { result ≡ next_slot 0 (entries_listed directory.now) }
{
    let Some(last) = directory.chunks_exact(12).next_back() else {
        return 0;
    };
    words::get_bytes(last, 0, 4) + 1
}

// Whether appending is refused once the file is open, and why.
#[tactic(auto, using(std::proofs::lemmas::Bool::Decides::nat_tests), unfolding(exam_rules::specs::Numbers::append_number, answers::specs::Answers::unless, answers::specs::Answers::first_failure))]
fn check_append(
    trailer: Trailer,
    next: u64,
    slot: u32,
    count: usize,
    fcm: usize,
    dfcm: usize,
    length: usize,
    buffer: usize,
    bench: usize,
) -> Result<(), Refusal>
    requires { length ≤ 16777216 }
    ensures { number_told result ≡ append_number trailer.entries next slot trailer.t count fcm dfcm length buffer bench }
{
    if 1024 <= trailer.entries {
        return Err(Refusal::TooManyEntries);
    }
    if (slot as u64) < next {
        return Err(Refusal::SlotNotAbove);
    }
    exam_checking::check_store(trailer.t, count, fcm, dfcm, length + 12, buffer, bench)
}

// Appends a slot to a file that is open. Answers the file's new length. It is inlined, since a call would
// put the trailer and the answer into memory, on a stack that may be small (tests/stack.c).
#[inline(always)]
pub fn append_opened(
    file: &mut [u8],
    length: usize,
    exam: u64,
    trailer: Trailer,
    slot: u32,
    words: &[u64],
    fcm: &mut [u64],
    dfcm: &mut [u64],
    bench: &mut [u8],
) -> Result<usize, Refusal>
    requires { opened file.old length exam ≡ Done trailer }
    ensures { Appends file.old length exam slot words.now fcm.old dfcm.old bench.old (made_told result) file.new fcm.new dfcm.new bench.new }
{
    let directory_end = trailer.start + 12 * trailer.entries;
    let next = next_slot(&file[trailer.start..directory_end]);
    check_append(
        trailer,
        next,
        slot,
        words.len(),
        fcm.len(),
        dfcm.len(),
        length,
        file.len(),
        bench.len(),
    )?;
    let size = block_packing::pack_all(words, fcm, dfcm, bench);
    Ok(exam_writing::add_block(file, &bench[..size], trailer, slot, exam))
}

// Packs words as the block of a slot above the last, and appends it to the file. Answers the file's new
// length.
pub fn append(
    file: &mut [u8],
    length: usize,
    exam: u64,
    slot: u32,
    words: &[u64],
    fcm: &mut [u64],
    dfcm: &mut [u64],
    bench: &mut [u8],
) -> Result<usize, Refusal>
    ensures { Appends file.old length exam slot words.now fcm.old dfcm.old bench.old (made_told result) file.new fcm.new dfcm.new bench.new }
{
    let opened = exam_opening::open(&file[..], length, exam);
    // The rules name this form for an opening, in `find`, `fetch` and `append`; elsewhere `?` hands a refusal on.
    let Ok(trailer) = opened else {
        return Err(opened.unwrap_err());
    };
    append_opened(file, length, exam, trailer, slot, words, fcm, dfcm, bench)
}
