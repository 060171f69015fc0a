// Whether a code of a block is padded.
#![tactic(auto)]

ghost use Rattle.std.specs.Prelude.{◌≡◌, cond, ◌+◌, ◌-◌, ◌≤◌, length};
ghost use Rattle.block_rules.specs.Codes.{written, padded};
ghost use Rattle.block_rules.specs.Block.{coded_in, none_padded};
ghost use Rattle.block_rules.specs.Inside.{Spanned, coded_at};
ghost use Rattle.block_padding.specs.Inside.{least_top};

use block_choice::written_by_table;

// The least number that the two top residual bytes of a code may make: a table, as block_choice's of the
// bytes written, since a walk over all codes has little else to do.
#[tactic(auto, unfolding(crate::specs::Inside::least_top))]
fn least_top(code: u8) -> u64
    ensures { result ≡ least_top code }
{
    match code % 8 {
        0 => 256,
        1 => 256,
        2 => 256,
        3 => 1,
        4 => 256,
        5 => 256,
        6 => 256,
        _ => 0,
    }
}

// 1 for a code that is padded, and 0 for one that is not, with its two top residual bytes at a place.
// By arithmetic, and no branch. Two bytes can always be read: where the code has one or none, those
// before it are there, and play no part.
fn padded(block: &[u8], tops: usize, code: u8) -> u64
    requires { (8 + written code ≤ tops + 2) × (tops + 2 ≤ length block.now) }
    ensures { (result ≡ cond (padded (coded_at block.now (tops + 2 - written code) code)) 1 0) × (result ≤ 1) }
{
    (65535 + least_top(code) - words::load_two(block, tops)) / 65536
}

// Whether none of a block's n codes is padded. Two codes a turn: a byte holds two. A turn waits for the
// one before only in its place and in the faults so far. These are two sums, one for each code of a byte:
// in one sum the two would wait for each other.
// No CountedBlock here: `Spanned` says all that it holds, and a call would pass its three words by memory.
pub fn none_padded(block: &[u8], n: usize) -> bool
    requires { Spanned block.now n }
    ensures { result ≡ none_padded (coded_in block.now) }
{
    let pairs = n / 2;
    let mut tops = 6 + (n + 1) / 2;
    let mut high_faults: u64 = 0;
    let mut low_faults: u64 = 0;
    for &byte in &block[8..8 + pairs] {
        let middle = tops + written_by_table(byte / 16);
        tops = middle + written_by_table(byte % 16);
        high_faults += padded(block, middle, byte / 16);
        low_faults += padded(block, tops, byte % 16);
    }
    let faults = high_faults + low_faults;
    if n % 2 == 1 {
        let code = block[8 + pairs] / 16;
        return faults + padded(block, tops + written_by_table(code), code) == 0;
    }
    faults == 0
}
