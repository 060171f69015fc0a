// What packing and unpacking refuse.
ghost use Rattle.std.specs.Prelude.{◌≡◌};
ghost use Rattle.answers.specs.Refusals.{number_told};
ghost use Rattle.block_rules.specs.Numbers.{is_table_length, tables_number, pack_number, unpack_number};

use answers::Refusal;

// Whether a table may have n words: a power of two from 1 to 65,536.
fn is_table_length(n: usize) -> bool
    ensures { result ≡ is_table_length n }
{
    let t = usize::trailing_zeros(n);
    if 16 < t {
        return false;
    }
    n == 1usize << t
}

// Refuses tables that differ in length or are no tables. (Two lengths, and no pair of them: whether they are
// equal is what is asked first.)
fn check_tables(fcm: usize, dfcm: usize) -> Result<(), Refusal>
    ensures { number_told result ≡ tables_number fcm dfcm }
{
    if fcm != dfcm {
        return Err(Refusal::Tables);
    }
    if !is_table_length(fcm) {
        return Err(Refusal::Tables);
    }
    Ok(())
}

// Refuses what cannot be packed.
pub fn check_pack(count: usize, fcm: usize, dfcm: usize, room: usize) -> Result<(), Refusal>
    ensures { number_told result ≡ pack_number count fcm dfcm room }
{
    check_tables(fcm, dfcm)?;
    if 65536 < count {
        return Err(Refusal::TooManyWords);
    }
    if room < 8 + (count + 1) / 2 + 8 * count {
        return Err(Refusal::NoRoom);
    }
    Ok(())
}

// Refuses what cannot be unpacked.
pub fn check_unpack(block: &[u8], fcm: usize, dfcm: usize, room: usize) -> Result<(), Refusal>
    ensures { number_told result ≡ unpack_number block.now fcm dfcm room }
{
    check_tables(fcm, dfcm)?;
    let count = block_checking::check(block)?;
    if room < count {
        return Err(Refusal::NoRoom);
    }
    Ok(())
}
