// Unpacking a block that nothing refuses.
#![tactic(auto)]

ghost use Rattle.std.specs.Prelude.{◌≡◌, ◌+◌, ◌<◌, ◌≤◌, length};
ghost use Rattle.words.specs.Words.{xor};
ghost use Rattle.words.specs.Bytes.{field};
ghost use Rattle.block_rules.specs.Codes.{named_prediction};
ghost use Rattle.block_rules.specs.Numbers.{t_of};
ghost use Rattle.block_rules.specs.Inside.{Unpackable, UnpacksAll};
ghost use Rattle.block_choice.specs.Inside.{held, Able};
ghost use Rattle.block_unpacking.specs.Inside.{Decodable, GetsWord, Getting, Gets};

use block_choice::Predictors;
use block_rules::CountedBlock;

// The prediction that a code names.
fn named_prediction(predictors: &Predictors, code: u8) -> u64
    requires { Able predictors.now }
    ensures { result ≡ named_prediction (held predictors.now) code }
{
    if code < 8 {
        return predictors.fcm_prediction();
    }
    predictors.dfcm_prediction()
}

// Reads the word of a code, whose residual bytes start at a place, as word i, and both predictors learn
// it. Answers the place of the next word's.
fn get_word(
    block: &[u8],
    at: usize,
    code: u8,
    predictors: &mut Predictors,
    words: &mut [u64],
    i: usize,
) -> usize
    requires { (Decodable block.now at code predictors.old) × (i < length words.old) }
    ensures { GetsWord block.now at code predictors.old words.old i predictors.new words.new result }
{
    let k = block_choice::written(code);
    let mut word = named_prediction(predictors, code);
    let mut next = at;
    if k > 0 {
        word = words::load_bytes(block, at, k) ^ word;
        next += k;
    }
    words[i] = word;
    predictors.learn(word);
    next
}

// Reads a block's words, the tables being cleared. Two words a turn: a byte holds two codes. (By number: of
// what a zip over `iter_mut` writes, nothing is known afterwards.)
fn get_words(block: CountedBlock, fcm: &mut [u64], dfcm: &mut [u64], words: &mut [u64])
    requires { Getting block.bytes.now block.count fcm.old dfcm.old words.old }
    ensures { Gets (t_of (length fcm.old)) block.entry.bytes.now words.old fcm.new dfcm.new words.new }
{
    let bytes = block.bytes;
    let n = block.count;
    let mut predictors = Predictors::new(fcm, dfcm);
    let mut at = 8 + (n + 1) / 2;
    for (j, &byte) in bytes[8..8 + n / 2].iter().enumerate() {
        let middle = get_word(bytes, at, byte / 16, &mut predictors, words, 2 * j);
        at = get_word(bytes, middle, byte % 16, &mut predictors, words, 2 * j + 1);
    }
    if n % 2 == 1 {
        let code = block_checking::half(bytes, n - 1);
        get_word(bytes, at, code, &mut predictors, words, n - 1);
    }
}

// Unpacks a block that nothing refuses. Answers the word count.
pub fn unpack_all(block: &[u8], fcm: &mut [u64], dfcm: &mut [u64], words: &mut [u64]) -> usize
    requires { Unpackable block.now (length fcm.old) (length dfcm.old) (length words.old) }
    ensures { UnpacksAll (t_of (length fcm.old)) block.now words.old fcm.new dfcm.new words.new result }
{
    words::clear(fcm);
    words::clear(dfcm);
    let n = block_checking::count(block);
    let counted = CountedBlock {
        bytes: block,
        count: n,
    };
    get_words(counted, fcm, dfcm, words);
    n
}
