// Unpacking a block.
ghost use Rattle.block_rules.specs.Calls.{unpacked_told, Unpacks};

use crate::checks;
use answers::Refusal;

// Unpacks a block into words, with both tables cleared first. Answers the word count.
pub fn unpack(
    block: &[u8],
    fcm: &mut [u64],
    dfcm: &mut [u64],
    words: &mut [u64],
) -> Result<usize, Refusal>
    ensures { Unpacks block.now fcm.old dfcm.old words.old (unpacked_told result) fcm.new dfcm.new words.new }
{
    checks::check_unpack(block, fcm.len(), dfcm.len(), words.len())?;
    Ok(block_unpacking::unpack_all(block, fcm, dfcm, words))
}
