// Replacing the words of a slot.
#![tactic(auto)]

ghost use Rattle.exam_rules.specs.Calls.{made_told, Replaces};

use answers::Refusal;

// Packs words as the block of a slot that is in the file, and puts it in the place of the slot's. Answers
// the file's new length.
pub fn replace(
    file: &mut [u8],
    length: usize,
    exam: u64,
    slot: u32,
    words: &[u64],
    fcm: &mut [u64],
    dfcm: &mut [u64],
    bench: &mut [u8],
) -> Result<usize, Refusal>
    ensures { Replaces file.old length exam slot words.now fcm.old dfcm.old bench.old (made_told result) file.new fcm.new dfcm.new bench.new }
{
    let trailer = exam_opening::open(&file[..], length, exam)?;
    let part = exam_opening::part_of(&file[..length], trailer, slot)?;
    exam_checking::check_store(
        trailer.t,
        words.len(),
        fcm.len(),
        dfcm.len(),
        length - (part.end - part.start),
        file.len(),
        bench.len(),
    )?;
    let size = block_packing::pack_all(words, fcm, dfcm, bench);
    Ok(exam_rewriting::replace_block(file, &bench[..size], length, exam, trailer, part))
}
