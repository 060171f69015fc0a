// One record of a list: the map that append_all appends for it.
#![tactic(auto)]

ghost use Rattle.std.specs.Prelude.{◌≡◌};
ghost use Rattle.exam_rules.specs.Numbers.{open_in_number};
ghost use Rattle.exam_rules.specs.Calls.{lent, made_told};
ghost use Rattle.exam_records.specs.Inside.{AppendsRecord};

use answers::Refusal;
use exam_rules::Record;

// Appends the map of a record to a file that opens. Answers the file's new length. The record's first
// word plus its count may be above what a machine word holds, so the two are never added before both are
// known to be small. The directory is not checked again: what append leaves of a file that opens is a
// file that opens.
pub fn append_record(
    file: &mut [u8],
    length: usize,
    exam: u64,
    item: &Record,
    words: &[u64],
    fcm: &mut [u64],
    dfcm: &mut [u64],
    bench: &mut [u8],
) -> Result<usize, Refusal>
    requires { open_in_number file.old length exam ≡ 0 }
    ensures { AppendsRecord exam words.now item.now length (lent file.old fcm.old dfcm.old bench.old) (made_told result) (lent file.new fcm.new dfcm.new bench.new) }
{
    let first = item.first;
    let count = item.count;
    if words.len() < first {
        return Err(Refusal::RecordOutside);
    }
    if words.len() - first < count {
        return Err(Refusal::RecordOutside);
    }
    let trailer = exam_opening::trailer(&file[..length]);
    exam_appending::append_opened(
        file,
        length,
        exam,
        trailer,
        item.slot,
        &words[first..first + count],
        fcm,
        dfcm,
        bench,
    )
}
