// From bytes to words to a block.
ghost use Rattle.std.specs.Prelude.{◌≡◌};
ghost use Rattle.std.proofs.lemmas.List.Edits.{sets};
ghost use Rattle.answers.specs.Refusals.{number_told};
ghost use Rattle.block_rules.specs.Calls.{packed_told};
ghost use Rattle.packer.specs.Program.{words_of, packer_number, Answers};
ghost use Rattle.packer.specs.Inside.{WholeWords, Lent};

use blocks::Refusal;

// Refuses an input that is too long, or that is not whole words.
fn check_input(length: usize) -> Result<(), Refusal>
    ensures { number_told result ≡ packer_number length }
{
    if 32768 < length {
        return Err(Refusal::TooManyWords);
    }
    if length % 8 != 0 {
        return Err(Refusal::TooShort);
    }
    Ok(())
}

// Puts the words in the input at the start of `into`. (By place: of what a zip over `iter_mut` writes,
// nothing is known afterwards.)
fn put_words(input: &[u8], into: &mut [u64])
    requires { WholeWords input.now into.old }
    ensures { into.new ≡ sets into.old 0 (words_of input.now) }
{
    for (i, bytes) in input.chunks_exact(8).enumerate() {
        into[i] = words::get_bytes(bytes, 0, 8);
    }
}

// Packs the words in the input into a block at the start of out. Answers the block's length.
pub fn pack_input(
    input: &[u8],
    fcm: &mut [u64],
    dfcm: &mut [u64],
    out: &mut [u8],
) -> Result<usize, Refusal>
    requires { Lent fcm.old dfcm.old out.old }
    ensures { Answers input.now fcm.old dfcm.old out.old (packed_told result) fcm.new dfcm.new out.new }
{
    check_input(input.len())?;
    let mut words = [0u64; 4096];
    put_words(input, &mut words);
    let count = input.len() / 8;
    blocks::pack(&words[..count], fcm, dfcm, out)
}
