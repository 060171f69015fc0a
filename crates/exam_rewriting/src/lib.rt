// Putting a block in the place of a slot's, in a file that is open.
#![tactic(auto)]

ghost use Rattle.std.specs.Prelude.{◌≡◌, ◌++◌, ◌+◌, ◌-◌, take, drop};
ghost use Rattle.std.proofs.lemmas.List.Edits.{sets};
ghost use Rattle.exam_rules.specs.Inside.{Entries};
ghost use Rattle.exam_rewriting.specs.Inside.{Behind, moved_bytes, resized_bytes, Exchanging, Replacing, Rewrites};

use exam_opening::Part;
use exam_rules::Trailer;

// Moves the offsets of n entries at a place by the difference between the size that a block before
// them has and the one it had.
fn move_offsets(file: &mut [u8], at: usize, n: usize, old: usize, new: usize)
    requires { Behind file.old at n old new }
    ensures { file.new ≡ sets file.old at (moved_bytes file.old at n old new) }
{
    // By number: no law tells what stands in the bytes once `chunks_exact_mut` has lent them out.
    for i in 0..n {
        let place = at + 12 * i;
        let offset = words::get_bytes(&file[..], place + 4, 4);
        words::put_bytes(file, place + 4, 4, offset + new as u64 - old as u64);
    }
}

// Moves the offsets of the n entries behind the one at a place, and gives that one another size.
fn resize(file: &mut [u8], place: usize, n: usize, old: usize, new: usize)
    requires { Entries file.old place (n + 1) × Behind file.old (place + 12) n old new }
    ensures { file.new ≡ sets file.old place (resized_bytes file.old place n old new) }
{
    move_offsets(file, place + 12, n, old, new);
    words::put_bytes(file, place + 8, 4, new as u64);
}

// Puts a block in the place of one of `old` bytes, and what stands behind that one, as far as `end`,
// behind the block.
fn exchange(file: &mut [u8], block: &[u8], start: usize, old: usize, end: usize)
    requires { Exchanging file.old block.now start old end }
    ensures { file.new ≡ sets file.old start (block.now ++ take (end - (start + old)) (drop (start + old) file.old)) }
{
    let from = start + old;
    words::move_bytes(file, from, start + block.len(), end - from);
    words::copy_in(file, start, block);
}

// Puts a block in the place of a slot's in a file that is open. The directory is changed where it
// stands, then it moves with the blocks behind, once; a new trailer follows. What is left of the old
// file becomes 0: it is patient data. Answers the new length.
pub fn replace_block(
    file: &mut [u8],
    block: &[u8],
    length: usize,
    exam: u64,
    trailer: Trailer,
    part: Part,
) -> usize
    requires { Replacing file.old block.now length exam trailer part }
    ensures { Rewrites file.old block.now length part.index file.new result }
{
    let old = part.end - part.start;
    let new = block.len();
    let n = trailer.entries;
    let place = trailer.start + 12 * part.index;
    resize(file, place, n - part.index - 1, old, new);
    exchange(file, block, part.start, old, trailer.start + 12 * n);
    let new_trailer = Trailer {
        start: trailer.start - old + new,
        ..trailer
    };
    let new_length = exam_writing::end_file(file, new_trailer, exam);
    words::wipe(file, new_length, length);
    new_length
}
