// Packing words into a block.
ghost use Rattle.block_rules.specs.Calls.{packed_told, Packs};

use crate::checks;
use answers::Refusal;

// Packs words into a block at the start of out, with both tables cleared first. Answers the block's
// length.
pub fn pack(
    words: &[u64],
    fcm: &mut [u64],
    dfcm: &mut [u64],
    out: &mut [u8],
) -> Result<usize, Refusal>
    ensures { Packs words.now fcm.old dfcm.old out.old (packed_told result) fcm.new dfcm.new out.new }
{
    checks::check_pack(words.len(), fcm.len(), dfcm.len(), out.len())?;
    Ok(block_packing::pack_all(words, fcm, dfcm, out))
}
