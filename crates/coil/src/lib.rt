// The calls of the store for C: each is the store's own call, with its number as the answer and what
// else it tells put into lent numbers. include/coil.h declares them.
#![tactic(auto)]

ghost use Rattle.std.specs.Prelude.{◌≡◌};
ghost use Rattle.answers.specs.Refusals.{number_told, value_told};
ghost use Rattle.coil.specs.Calls.{CoilOpens, CoilChecks, CoilPacks, CoilUnpacks, CoilCreates, CoilFinds, CoilFetches, CoilAppends, CoilAppendsAll, CoilReplaces, CoilSalvages};

use answers::{Refusal, number_told};
use exams::Record;

// Puts what an answer has into a lent number, 0 where it is a refusal, and answers its number.
fn tell(answer: Result<usize, Refusal>, value: &mut usize) -> u32
    ensures number { result ≡ number_told answer }
    ensures value { value.new ≡ value_told (λ n. n) answer }
{
    *value = answer.unwrap_or_default();
    number_told(&answer)
}

// Opens the file in the first bytes of a buffer for an exam number, which must be its own.
#[unsafe(no_mangle)]
pub extern "C" fn coil_open(file: &[u8], length: usize, exam: u64) -> u32
    ensures { CoilOpens file.now length exam result }
{
    number_told(&exams::open(file, length, exam))
}

// Checks a block.
#[unsafe(no_mangle)]
pub extern "C" fn coil_check(block: &[u8]) -> u32
    ensures { CoilChecks block.now result }
{
    number_told(&blocks::check(block))
}

// Packs words into a block at the start of out.
#[unsafe(no_mangle)]
pub extern "C" fn coil_pack(
    words: &[u64],
    fcm: &mut [u64],
    dfcm: &mut [u64],
    out: &mut [u8],
    length: &mut usize,
) -> u32
    ensures { CoilPacks words.now fcm.old dfcm.old out.old result fcm.new dfcm.new out.new length.new }
{
    tell(blocks::pack(words, fcm, dfcm, out), length)
}

// Unpacks the words of a block to the start of words.
#[unsafe(no_mangle)]
pub extern "C" fn coil_unpack(
    block: &[u8],
    fcm: &mut [u64],
    dfcm: &mut [u64],
    words: &mut [u64],
    count: &mut usize,
) -> u32
    ensures { CoilUnpacks block.now fcm.old dfcm.old words.old result fcm.new dfcm.new words.new count.new }
{
    tell(blocks::unpack(block, fcm, dfcm, words), count)
}

// Creates an empty file for an exam at the start of a buffer.
#[unsafe(no_mangle)]
pub extern "C" fn coil_create(file: &mut [u8], exam: u64, t: u32, length: &mut usize) -> u32
    ensures { CoilCreates file.old exam t result file.new length.new }
{
    tell(exams::create(file, exam, t), length)
}

// Finds where the block of a slot stands in a file.
#[unsafe(no_mangle)]
pub extern "C" fn coil_find(
    file: &[u8],
    length: usize,
    exam: u64,
    slot: u32,
    offset: &mut usize,
    block_length: &mut usize,
) -> u32
    ensures { CoilFinds file.now length exam slot result offset.new block_length.new }
{
    let found = exams::locate(file, length, exam, slot);
    let place = found.unwrap_or_default();
    *offset = place.offset;
    *block_length = place.size;
    number_told(&found)
}

// Fetches the words of a slot to the start of words.
#[unsafe(no_mangle)]
pub extern "C" fn coil_fetch(
    file: &[u8],
    length: usize,
    exam: u64,
    slot: u32,
    fcm: &mut [u64],
    dfcm: &mut [u64],
    words: &mut [u64],
    count: &mut usize,
) -> u32
    ensures { CoilFetches file.now length exam slot fcm.old dfcm.old words.old result fcm.new dfcm.new words.new count.new }
{
    let fetched = exams::fetch(file, length, exam, slot, fcm, dfcm, words);
    tell(fetched, count)
}

// Packs words as the block of a slot above the last, and appends it to the file.
#[unsafe(no_mangle)]
pub extern "C" fn coil_append(
    file: &mut [u8],
    length: usize,
    exam: u64,
    slot: u32,
    words: &[u64],
    fcm: &mut [u64],
    dfcm: &mut [u64],
    bench: &mut [u8],
    new_length: &mut usize,
) -> u32
    ensures { CoilAppends file.old length exam slot words.now fcm.old dfcm.old bench.old result file.new fcm.new dfcm.new bench.new new_length.new }
{
    let appended = exams::append(file, length, exam, slot, words, fcm, dfcm, bench);
    tell(appended, new_length)
}

// Appends the map of each record, up to the first that is refused.
#[unsafe(no_mangle)]
pub extern "C" fn coil_append_all(
    file: &mut [u8],
    length: usize,
    exam: u64,
    records: &[Record],
    words: &[u64],
    fcm: &mut [u64],
    dfcm: &mut [u64],
    bench: &mut [u8],
    appended: &mut usize,
    new_length: &mut usize,
) -> u32
    ensures { CoilAppendsAll file.old length exam records.now words.now fcm.old dfcm.old bench.old result file.new fcm.new dfcm.new bench.new appended.new new_length.new }
{
    let progress = exams::append_all(file, length, exam, records, words, fcm, dfcm, bench);
    *appended = progress.appended;
    *new_length = progress.length;
    progress.refused.map_or(0, u32::from)
}

// Packs words as the block of a slot that is in the file, and puts it in the place of the slot's.
#[unsafe(no_mangle)]
pub extern "C" fn coil_replace(
    file: &mut [u8],
    length: usize,
    exam: u64,
    slot: u32,
    words: &[u64],
    fcm: &mut [u64],
    dfcm: &mut [u64],
    bench: &mut [u8],
    new_length: &mut usize,
) -> u32
    ensures { CoilReplaces file.old length exam slot words.now fcm.old dfcm.old bench.old result file.new fcm.new dfcm.new bench.new new_length.new }
{
    let replaced = exams::replace(file, length, exam, slot, words, fcm, dfcm, bench);
    tell(replaced, new_length)
}

// Makes a new file, in another buffer, of the blocks that stand whole at the start of old bytes.
#[unsafe(no_mangle)]
pub extern "C" fn coil_salvage(
    old: &[u8],
    file: &mut [u8],
    exam: u64,
    t: u32,
    new_length: &mut usize,
    kept: &mut usize,
    left_over: &mut usize,
    renumbered: &mut u32,
) -> u32
    ensures { CoilSalvages old.now file.old exam t result file.new new_length.new kept.new left_over.new renumbered.new }
{
    let salvaged = exams::salvage(old, file, exam, t);
    let made = salvaged.unwrap_or_default();
    *new_length = made.length;
    *kept = made.kept;
    *left_over = made.left_over;
    *renumbered = u32::from(made.renumbered);
    number_told(&salvaged)
}
