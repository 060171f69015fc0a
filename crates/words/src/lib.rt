// Tools on 64-bit words and on bytes, for the crates above. A tool's `requires` is met by the crate
// that calls it; the calls of the store itself, in `blocks` and `exams`, have none.
#![tactic(auto)]

ghost use Rattle.std.specs.Prelude.{◌≡◌, ◌+◌, ◌-◌, ◌<◌, ◌≤◌, length, take, drop, replicate};
ghost use Rattle.std.proofs.lemmas.List.Edits.{sets};
ghost use Rattle.words.specs.Words.{sub64, zero_bytes};
ghost use Rattle.words.specs.Bytes.{low_bytes, field, same_bytes};

// The leading zero bytes of a word: its leading zero bits, in whole bytes.
pub fn zero_bytes(r: u64) -> u8
    ensures { result ≡ zero_bytes r }
{
    (u64::leading_zeros(r) / 8) as u8
}

// The difference of two words, modulo 2^64.
pub fn difference(a: u64, b: u64) -> u64
    ensures { result ≡ sub64 a b }
{
    std::num::wrapping_sub_u64(a, b)
}

// Sets every word of a table to zero. (`fill` sets the last word apart, and packing took up to 5 %
// longer with it.)
pub fn clear(table: &mut [u64])
    ensures { table.new ≡ replicate (length table.old) 0 }
{
    for word in table.iter_mut() {
        *word = 0;
    }
}

// Writes the k low bytes of x at a place, low byte first. (Not by `to_le_bytes`, since k may be above 8.)
#[tactic(auto, using(crate::proofs::Stores::stores))]
pub fn put_bytes(out: &mut [u8], at: usize, k: usize, x: u64)
    requires { at + k ≤ length out.old }
    ensures { out.new ≡ sets out.old at (low_bytes k x) }
{
    let mut rest = x;
    for byte in out[at..at + k].iter_mut() {
        *byte = (rest % 256) as u8;
        rest = rest / 256;
    }
}

// Reads the number in a field of k bytes at a place. (With k known, as in each call, the copy is one
// load, and no call of C's library comes of it.)
#[tactic(auto, using(crate::proofs::Bytes::read_padded))]
pub fn get_bytes(src: &[u8], at: usize, k: usize) -> u64
    requires { (at + k ≤ length src.now) × (k ≤ 8) }
    ensures { result ≡ field k at src.now }
{
    let mut bytes = [0; 8];
    bytes[..k].copy_from_slice(&src[at..at + k]);
    u64::from_le_bytes(bytes)
}

// Reads two bytes. (Not one function with `load_eight`: each number type has a reading of its own.)
pub fn load_two(src: &[u8], at: usize) -> u64
    requires { at + 2 ≤ length src.now }
    ensures { (result ≡ field 2 at src.now) × (result < 65536) }
{
    u64::from(u16::from_le_bytes(src[at..at + 2].try_into().unwrap()))
}

// Reads eight bytes.
fn load_eight(src: &[u8], at: usize) -> u64
    requires { at + 8 ≤ length src.now }
    ensures { result ≡ field 8 at src.now }
{
    u64::from_le_bytes(src[at..at + 8].try_into().unwrap())
}

// Reads the number in a field of k bytes at a place by one load: of the eight bytes that end with
// it, so that nothing past it is read, with those before it shifted out.
pub fn load_bytes(src: &[u8], at: usize, k: usize) -> u64
    requires { (0 < k) × (k ≤ 8) × (8 ≤ at + k) × (at + k ≤ length src.now) }
    ensures { result ≡ field k at src.now }
{
    let before = 8 - k;
    load_eight(src, at - before) >> (8 * before)
}

// Whether two slices hold the same bytes. (`a == b` compares the first bytes and then calls the library for
// the rest, and opening a file took up to a third longer.)
pub fn same(a: &[u8], b: &[u8]) -> bool
    ensures { result ≡ same_bytes a.now b.now }
{
    a.len() == b.len() && b.starts_with(a)
}

// Copies the bytes of src to a place of out. (`copy_from_slice` would have the compiler call C's
// `memmove`, and of what a zip over `iter_mut` writes nothing is known afterwards.)
#[tactic(auto, using(crate::proofs::Stores::stores))]
pub fn copy_in(out: &mut [u8], at: usize, src: &[u8])
    requires { at + length src.now ≤ length out.old }
    ensures { out.new ≡ sets out.old at src.now }
{
    for (i, byte) in src.iter().enumerate() {
        out[at + i] = *byte;
    }
}

// Moves n bytes from one place of a buffer to another, which may overlap. Where the places are the
// same, nothing is touched.
#[tactic(auto, using(crate::proofs::Stores::stores))]
pub fn move_bytes(buffer: &mut [u8], from: usize, to: usize, n: usize)
    requires { (from + n ≤ length buffer.old) × (to + n ≤ length buffer.old) }
    ensures { buffer.new ≡ sets buffer.old to (take n (drop from buffer.old)) }
{
    if from != to {
        buffer.copy_within(from..from + n, to);
    }
}

// Sets the bytes from one place up to another to zero: none, where the second is not above the first.
#[tactic(auto, using(crate::proofs::Stores::stores))]
pub fn wipe(buffer: &mut [u8], from: usize, to: usize)
    requires { to ≤ length buffer.old }
    ensures { buffer.new ≡ sets buffer.old from (replicate (to - from) 0) }
{
    if from < to {
        buffer[from..to].fill(0);
    }
}
