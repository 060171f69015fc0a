// Checking a block.
#![tactic(auto)]

ghost use Rattle.std.specs.Prelude.{◌≡◌, ◌+◌, ◌/◌, ◌%◌, ◌≤◌, ◌<◌, length, get_or, drop};
ghost use Rattle.std.specs.List.{sum_by};
ghost use Rattle.block_rules.specs.Codes.{written};
ghost use Rattle.block_rules.specs.Block.{count, halves, counted_codes, residual_length};
ghost use Rattle.block_rules.specs.Numbers.{filler_stands};
ghost use Rattle.block_rules.specs.Calls.{checked, checked_told};

use answers::Refusal;
use block_rules::CountedBlock;

// The word count that a block declares.
pub fn count(block: &[u8]) -> usize
    requires { 8 ≤ length block.now }
    ensures { result ≡ count block.now }
{
    words::get_bytes(block, 0, 4) as usize
}

// The i-th half of a block's code bytes.
pub fn half(block: &[u8], i: usize) -> u8
    requires { 8 + i / 2 < length block.now }
    ensures { result ≡ get_or (halves (drop 8 block.now)) i 0 }
{
    let at = 8 + i / 2;
    let byte = block[at];
    if i % 2 == 0 { byte / 16 } else { byte % 16 }
}

// How many residual bytes the two codes of a byte have. In eight bits, so that many bytes
// are done at a time.
fn both_written(byte: u8) -> u32
    ensures { (result ≡ written (byte / 16) + written (byte % 16)) × (result ≤ 16) }
{
    let high = byte / 16 % 8;
    let low = byte % 8;
    (16 - high - high / 4 - low - low / 4) as u32
}

// How many residual bytes the codes of whole code bytes have.
fn all_written(bytes: &[u8]) -> u32
    requires { length bytes.now ≤ 32768 }
    ensures { result ≡ sum_by (λ byte. written (byte / 16) + written (byte % 16)) bytes.now }
{
    bytes.iter().map(|byte| both_written(*byte)).sum()
}

// How many residual bytes the counted codes have.
fn residual_length(block: CountedBlock) -> usize
    ensures { result ≡ residual_length (counted_codes block.entry.bytes.now) }
{
    let n = block.count;
    let paired = all_written(&block.bytes[8..8 + n / 2]) as usize;
    if n % 2 == 1 {
        return paired + block_choice::written(half(block.bytes, n - 1));
    }
    paired
}

// Whether an odd count has 7 as the last low half.
fn filler_stands(block: CountedBlock) -> bool
    ensures { result ≡ filler_stands block.entry.bytes.now }
{
    block.count % 2 == 0 || half(block.bytes, block.count) == 7
}

// Checks a block. Answers its word count.
pub fn check(block: &[u8]) -> Result<usize, Refusal>
    ensures { checked_told result ≡ checked block.now }
{
    let length = block.len();
    if length < 8 {
        return Err(Refusal::TooShort);
    }
    let n = count(block);
    if 65536 < n {
        return Err(Refusal::TooManyWords);
    }
    if words::get_bytes(block, 4, 4) != length as u64 {
        return Err(Refusal::Lengths);
    }
    let start = 8 + (n + 1) / 2;
    if length < start {
        return Err(Refusal::Lengths);
    }
    let counted = CountedBlock {
        bytes: block,
        count: n,
    };
    if length != start + residual_length(counted) {
        return Err(Refusal::Lengths);
    }
    if !filler_stands(counted) {
        return Err(Refusal::Filler);
    }
    if !block_padding::none_padded(block, n) {
        return Err(Refusal::Padded);
    }
    Ok(n)
}
