// The choice between the two residuals, and the code of the chosen one.
ghost use Rattle.std.specs.Prelude.{◌≡◌, ◌≤◌, ◌<◌};
ghost use Rattle.block_rules.specs.Codes.{dfcm_chosen, low_three, written, chosen};

use block_rules::Coded;

// The low three bits of a code, from the leading zero bytes: from four on one less, since four are
// coded as three.
fn low_three(zero_bytes: u8) -> u8
    requires { zero_bytes ≤ 7 }
    ensures { result ≡ low_three zero_bytes }
{
    zero_bytes - zero_bytes / 4
}

// How many residual bytes are written for a code: from low bits 4 on one less, since no code writes
// four. By arithmetic, for unpacking, where the next word waits for it.
pub fn written(code: u8) -> usize
    ensures { result ≡ written code }
{
    let low = (code % 8) as usize;
    8 - low - low / 4
}

// The same by an arm for each of the low bits, so that the compiler makes a table of it. That is faster
// where nothing waits for it, in packing and in the walk over all codes; unpacking would take up to two
// and a half times as long.
#[tactic(auto, unfolding(block_rules::specs::Codes::written))]
pub fn written_by_table(code: u8) -> usize
    ensures { result ≡ written code }
{
    match code % 8 {
        0 => 8,
        1 => 7,
        2 => 6,
        3 => 5,
        4 => 3,
        5 => 2,
        6 => 1,
        _ => 0,
    }
}

// Of two residuals, neither of them 0, the chosen one with its code: fcm's, unless dfcm's has more
// leading zero bits. The top bit of a code, 8, is for dfcm. Under the test values are only exchanged,
// so that the compiler makes no branch of it: noise would have it guessed wrongly every third time.
pub fn chosen(by_fcm: u64, by_dfcm: u64) -> Coded
    requires { (0 < by_fcm) × (0 < by_dfcm) }
    ensures { result ≡ chosen dfcm_chosen by_fcm by_dfcm }
{
    let mut top: u8 = 0;
    let mut residual = by_fcm;
    let mut zeros = words::zero_bytes(by_fcm);
    if u64::leading_zeros(by_fcm) < u64::leading_zeros(by_dfcm) {
        top = 8;
        residual = by_dfcm;
        zeros = words::zero_bytes(by_dfcm);
    }
    let code = top + low_three(zeros);
    Coded { code, residual }
}
