// Filling a file: the maps of a list of records, appended one after another.
#![tactic(auto)]

ghost use Rattle.std.specs.Prelude.{◌≡◌, Some};
ghost use Rattle.exam_rules.specs.Calls.{length_kept, filled_told, AppendsAll};

use answers::Refusal;
use exam_rules::{Progress, Record};

// The length that a refusal answers: the one reached, and 0 where no map went in, as append does.
fn length_kept(appended: usize, length: usize) -> usize
    ensures { result ≡ length_kept appended length }
{
    if appended == 0 {
        return 0;
    }
    length
}

// How far a refusal lets the maps come.
fn stopped(refusal: Refusal, appended: usize, length: usize) -> Progress
    ensures { result ≡ record { appended = appended; length = length_kept appended length; refused = Some refusal } }
{
    Progress {
        appended,
        length: length_kept(appended, length),
        refused: Some(refusal),
    }
}

// Appends the map of each record, up to the first that is refused. Those that went in before it stay.
pub fn append_all(
    file: &mut [u8],
    mut length: usize,
    exam: u64,
    records: &[Record],
    words: &[u64],
    fcm: &mut [u64],
    dfcm: &mut [u64],
    bench: &mut [u8],
) -> Progress
    ensures { AppendsAll file.old length exam records.now words.now fcm.old dfcm.old bench.old (filled_told result) file.new fcm.new dfcm.new bench.new }
{
    if let Err(refusal) = exam_checking::check_open_in(&file[..], length, exam) {
        return stopped(refusal, 0, length);
    }
    for (appended, record) in records.iter().enumerate() {
        match exam_records::append_record(file, length, exam, record, words, fcm, dfcm, bench) {
            Ok(new_length) => length = new_length,
            Err(refusal) => return stopped(refusal, appended, length),
        }
    }
    Progress {
        appended: records.len(),
        length,
        refused: None,
    }
}
