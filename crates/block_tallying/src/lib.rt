// The tally of a block, from its codes.
#![tactic(auto)]

ghost use Rattle.std.specs.Prelude.{◌≡◌, ◌≤◌, [], ◌∷◌, ◌/◌, ◌%◌, length};
ghost use Rattle.std.specs.List.{sum_by};
ghost use Rattle.block_rules.specs.Block.{counted_codes};
ghost use Rattle.block_tallying.specs.Tally.{dfcm_words, tally, no_tally};
ghost use Rattle.block_rules.specs.Numbers.{form_number};

mod answer;

pub use answer::Tally;
use block_rules::CountedBlock;

// How many of the two codes of a byte take their word from dfcm: their top bits, added in eight bits and
// then widened, so that many bytes are done at a time.
fn dfcm_in_byte(byte: u8) -> u16
    ensures { (result ≡ dfcm_words (byte / 16 ∷ byte % 16 ∷ [])) × (result ≤ 2) }
{
    (byte / 128 + byte / 8 % 2) as u16
}

// Whether the first of them does, as a number.
fn dfcm_in_high_half(byte: u8) -> u16
    ensures { result ≡ dfcm_words (byte / 16 ∷ []) }
{
    (byte / 128) as u16
}

// How many codes of whole code bytes do. The sum has room in sixteen bits, which is faster than in more.
fn dfcm_in_bytes(bytes: &[u8]) -> u16
    requires { length bytes.now ≤ 32767 }
    ensures { result ≡ sum_by (λ byte. dfcm_words (byte / 16 ∷ byte % 16 ∷ [])) bytes.now }
{
    bytes.iter().map(|byte| dfcm_in_byte(*byte)).sum()
}

// How many of the counted codes take their word from dfcm. The last code byte stands by itself: of an
// odd count its low half is the filler, and the bytes before it are few enough for sixteen bits.
fn dfcm_words(block: CountedBlock) -> usize
    ensures { result ≡ dfcm_words (counted_codes block.entry.bytes.now) }
{
    let n = block.count;
    let Some((last, before)) = block.bytes[8..8 + (n + 1) / 2].split_last() else {
        return 0;
    };
    let sum = dfcm_in_bytes(before) as usize;
    if n % 2 == 1 {
        return sum + dfcm_in_high_half(*last) as usize;
    }
    sum + dfcm_in_byte(*last) as usize
}

// The tally of a block that can be read. Only dfcm's words are counted: the others are fcm's, and all
// bytes behind the codes are residual bytes.
pub fn tally(block: &[u8]) -> Tally
    requires { form_number block.now ≡ 0 }
    ensures { result ≡ tally block.now }
{
    let n = block_checking::count(block);
    let counted = CountedBlock {
        bytes: block,
        count: n,
    };
    let dfcm_words = dfcm_words(counted);
    Tally {
        fcm_words: n - dfcm_words,
        dfcm_words,
        residual_bytes: block.len() - (8 + (n + 1) / 2),
    }
}

// The tally of a refusal, where nothing was read: all its numbers are 0.
pub fn no_tally() -> Tally
    ensures { result ≡ no_tally }
{
    Tally::default()
}
