// Packing words that nothing refuses.
#![tactic(auto)]

ghost use Rattle.std.specs.Prelude.{◌≡◌, ◌+◌, ◌/◌, ◌≤◌, [], ◌++◌};
ghost use lib.ListN.{length, take};
ghost use Rattle.std.proofs.lemmas.List.Edits.{sets};
ghost use Rattle.words.specs.Bytes.{low_bytes};
ghost use Rattle.block_rules.specs.Block.{residuals_at};
ghost use Rattle.block_rules.specs.Numbers.{t_of};
ghost use Rattle.block_rules.specs.Inside.{Packable, PacksAll};
ghost use Rattle.block_packing.specs.Inside.{unpaired, Resting, Putting, Puts};

use block_choice::Predictors;
use block_staging::Stage;

// Puts what the whole pairs leave: what is staged, whose place is at, and the last word where the count
// is odd. Answers where the residual bytes end.
fn put_rest(
    words: &[u64],
    predictors: &mut Predictors,
    out: &mut [u8],
    stage: &mut Stage,
    at: usize,
) -> usize
    requires { Resting words.now predictors.old out.old stage.old at }
    ensures { Puts predictors.old (unpaired words.now) (8 + length words.now / 2) at stage.old.held out.old predictors.new out.new result }
{
    let count = words.len();
    if count % 2 == 0 {
        return stage.flush(out, at);
    }
    let code = block_staging::stage_word(predictors, stage, words[count - 1]);
    out[8 + count / 2] = code * 16 + 7;
    stage.flush(out, at)
}

// Puts the codes and the residual bytes of all words, two words a turn. Answers where the residual bytes
// end. The stage is there so that a word's bytes take one store, and nothing beyond the block is touched.
// (By number and not by a zip: `make_room` takes all of the output.)
fn put_words(words: &[u64], predictors: &mut Predictors, out: &mut [u8], stage: &mut Stage) -> usize
    requires { Putting words.now predictors.old out.old stage.old }
    ensures { Puts predictors.old words.now 8 (residuals_at (length words.now)) [] out.old predictors.new out.new result }
{
    let n = words.len();
    let mut at = 8 + (n + 1) / 2;
    for k in 0..n / 2 {
        out[8 + k] = block_staging::stage_pair(predictors, stage, words, 2 * k);
        at = stage.make_room(out, at);
    }
    put_rest(words, predictors, out, stage, at)
}

// Puts the two fields at the head of a block: the word count and the length of the whole block.
fn put_head(out: &mut [u8], count: usize, length: usize)
    requires { 8 ≤ lib.ListN.length out.old }
    ensures { out.new ≡ sets out.old 0 (low_bytes 4 count ++ low_bytes 4 length) }
{
    words::put_bytes(out, 0, 4, count as u64);
    words::put_bytes(out, 4, 4, length as u64);
}

// Packs words that nothing refuses. Answers the block's length.
pub fn pack_all(words: &[u64], fcm: &mut [u64], dfcm: &mut [u64], out: &mut [u8]) -> usize
    requires { Packable (length words.now) (length fcm.old) (length dfcm.old) (length out.old) }
    ensures { PacksAll (t_of (length fcm.old)) words.now out.old fcm.new dfcm.new out.new result }
{
    words::clear(fcm);
    words::clear(dfcm);
    let mut bytes = [0u8; 480];
    let mut stage = Stage::new(&mut bytes);
    let mut predictors = Predictors::new(fcm, dfcm);
    let end = put_words(words, &mut predictors, out, &mut stage);
    put_head(out, words.len(), end);
    end
}
