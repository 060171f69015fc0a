// The checks of a file: its trailer, its directory, its tables; and those of storing a block in it.
#![tactic(auto)]

ghost use Rattle.std.specs.Prelude.{◌≡◌, ◌+◌, ◌≤◌};
ghost use Rattle.answers.specs.Refusals.{number_told};
ghost use Rattle.exam_rules.specs.Numbers.{most_bytes, edition_known, joins, entries_number, fields_number, trailer_number, open_number, open_in_number, file_tables_number, store_number};
ghost use Rattle.exam_rules.specs.Inside.{entries_listed};

use answers::Refusal;

// Whether there is such an edition.
#[tactic(auto, unfolding(exam_rules::specs::Numbers::edition_known))]
fn edition_known(edition: u64) -> bool
    ensures { result ≡ edition_known edition }
{
    edition == 1
}

// Refuses a trailer whose numbers break the rules, at the end of a file of a length.
#[tactic(auto, using(std::proofs::lemmas::Bool::Decides::nat_tests), unfolding(exam_rules::specs::Numbers::fields_number, answers::specs::Answers::unless, answers::specs::Answers::first_failure))]
fn check_fields(
    edition: u64,
    t: u64,
    distance: u64,
    entries: u64,
    stated: u64,
    length: u64,
) -> Result<(), Refusal>
    ensures { number_told result ≡ fields_number edition t distance entries stated length }
{
    if !edition_known(edition) {
        return Err(Refusal::Trailer);
    }
    if 16 < t {
        return Err(Refusal::Trailer);
    }
    if 1024 < entries {
        return Err(Refusal::Trailer);
    }
    if distance != 32 + 12 * entries {
        return Err(Refusal::Trailer);
    }
    if length < distance {
        return Err(Refusal::Trailer);
    }
    if stated != length {
        return Err(Refusal::Trailer);
    }
    Ok(())
}

// Refuses a trailer that breaks the rules, but for the exam number.
#[tactic(auto, using(std::proofs::lemmas::Bool::Decides::nat_tests, crate::proofs::Fields::mark_read), unfolding(exam_rules::specs::Numbers::trailer_number, answers::specs::Answers::unless, answers::specs::Answers::first_failure))]
fn check_trailer(file: &[u8]) -> Result<(), Refusal>
    ensures { number_told result ≡ trailer_number file.now }
{
    let length = file.len();
    if length < 32 {
        return Err(Refusal::TooShort);
    }
    if 16777216 < length {
        return Err(Refusal::Trailer);
    }
    let at = length - 32;
    let mark_end = at + 4;
    if !words::same(&file[at..mark_end], b"coil") {
        return Err(Refusal::Trailer);
    }
    let edition = words::get_bytes(file, at + 4, 2);
    let t = words::get_bytes(file, at + 6, 2);
    let distance = words::get_bytes(file, at + 16, 4);
    let entries = words::get_bytes(file, at + 20, 4);
    let stated = words::get_bytes(file, at + 24, 8);
    check_fields(edition, t, distance, entries, stated, length as u64)
}

// Whether what comes next may start where it does.
#[tactic(auto, unfolding(exam_rules::specs::Numbers::joins))]
fn joins(end: u64, next: u64) -> bool
    ensures { result ≡ joins end next }
{
    end == next
}

// Refuses a directory that breaks its rule, where its own place is the end of the last block.
fn check_entries(directory: &[u8], start: usize) -> Result<(), Refusal>
    ensures { number_told result ≡ entries_number joins 0 0 (entries_listed directory.now) start }
{
    let mut lowest: u64 = 0;
    let mut from: u64 = 0;
    for entry in directory.chunks_exact(12) {
        let slot = words::get_bytes(entry, 0, 4);
        let offset = words::get_bytes(entry, 4, 4);
        let size = words::get_bytes(entry, 8, 4);
        if slot < lowest {
            return Err(Refusal::Directory);
        }
        if !joins(from, offset) {
            return Err(Refusal::Directory);
        }
        if size < 8 {
            return Err(Refusal::Directory);
        }
        lowest = slot + 1;
        from = offset + size;
    }
    if !joins(from, start as u64) {
        return Err(Refusal::Directory);
    }
    Ok(())
}

// Refuses a file that does not open for an exam. The trailer's fields are read again here, and once more when
// the file is known to open: a check answers its refusal alone, and these are a few bytes once a call.
#[tactic(auto, using(std::proofs::lemmas::Bool::Decides::nat_tests, exam_rules::proofs::Opens::trails, crate::proofs::Fields::directory_read), unfolding(exam_rules::specs::Numbers::open_number, answers::specs::Answers::unless, answers::specs::Answers::first_failure))]
fn check_open(file: &[u8], exam: u64) -> Result<(), Refusal>
    ensures { number_told result ≡ open_number file.now exam }
{
    check_trailer(file)?;
    if exam == 0 {
        return Err(Refusal::ExamNumber);
    }
    let at = file.len() - 32;
    if words::get_bytes(file, at + 8, 8) != exam {
        return Err(Refusal::ExamNumber);
    }
    let start = file.len() - words::get_bytes(file, at + 16, 4) as usize;
    check_entries(&file[start..at], start)
}

// Refuses a buffer whose first bytes do not open as a file for an exam.
#[tactic(auto, using(std::proofs::lemmas::Bool::Decides::nat_tests), unfolding(exam_rules::specs::Numbers::open_in_number, answers::specs::Answers::unless, answers::specs::Answers::first_failure))]
pub fn check_open_in(file: &[u8], length: usize, exam: u64) -> Result<(), Refusal>
    ensures { number_told result ≡ open_in_number file.now length exam }
{
    if file.len() < length {
        return Err(Refusal::TooShort);
    }
    check_open(&file[..length], exam)
}

// Refuses tables that differ in length or are not of 2^t words.
#[tactic(auto, using(std::proofs::lemmas::Bool::Decides::nat_tests, crate::proofs::Fields::no_table), unfolding(exam_rules::specs::Numbers::file_tables_number, answers::specs::Answers::unless, answers::specs::Answers::first_failure))]
pub fn check_file_tables(t: usize, fcm: usize, dfcm: usize) -> Result<(), Refusal>
    ensures { number_told result ≡ file_tables_number t fcm dfcm }
{
    if fcm != dfcm {
        return Err(Refusal::Tables);
    }
    // No table has 2^64 words.
    if 63 < t {
        return Err(Refusal::Tables);
    }
    if fcm != 1usize << t {
        return Err(Refusal::Tables);
    }
    Ok(())
}

// Refuses words that cannot be stored as a block in a file, beside so many bytes that are kept.
#[tactic(auto, using(std::proofs::lemmas::Bool::Decides::nat_tests), unfolding(exam_rules::specs::Numbers::store_number, answers::specs::Answers::unless, answers::specs::Answers::first_failure))]
pub fn check_store(
    t: usize,
    count: usize,
    fcm: usize,
    dfcm: usize,
    kept: usize,
    buffer: usize,
    bench: usize,
) -> Result<(), Refusal>
    requires { kept ≤ most_bytes + 12 }
    ensures { number_told result ≡ store_number t count fcm dfcm kept buffer bench }
{
    check_file_tables(t, fcm, dfcm)?;
    if 65536 < count {
        return Err(Refusal::TooManyWords);
    }
    let worst = 8 + (count + 1) / 2 + 8 * count;
    let need = kept + worst;
    if buffer < need {
        return Err(Refusal::NoRoom);
    }
    if 16777216 < need {
        return Err(Refusal::NoRoom);
    }
    if bench < worst {
        return Err(Refusal::NoRoom);
    }
    Ok(())
}
