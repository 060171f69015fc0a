// Writing the text.
ghost use Rattle.std.specs.Prelude.{◌≤◌, ◌++◌};
ghost use Rattle.exam_rules.specs.Reading.{file_in};
ghost use Rattle.listing.specs.Text.{decimal, exam_line, slot_line, slot_lines, listing};
ghost use Rattle.listing.specs.Calls.{Lists, listed_told};
ghost use Rattle.listing.specs.Inside.{HasRoom, Extends, Directory, Listable};

use crate::checking;
use answers::Refusal;
use exam_rules::Trailer;
use itoa::Buffer;

// A text in the first bytes of what was lent for it. Each method puts more behind it. (`write!` answers
// a Result, and nothing could say that it never fails; here there is room, so nothing can. That there is
// room is said of the bytes that are to be put, so it is no invariant of the text.)
#[derive(Drop)]
struct Text<'a> {
    bytes: &'a mut [u8],
    length: usize,
}

impl<'a> Text<'a> {
    fn put(&mut self, bytes: &[u8])
        requires { HasRoom self.old bytes.now }
        ensures { Extends self.old bytes.now self.new }
    {
        words::copy_in(self.bytes, self.length, bytes);
        self.length += bytes.len();
    }

    // Puts bytes and then a number, in decimal.
    fn put_number(&mut self, before: &[u8], n: u64)
        requires { HasRoom self.old (before.now ++ decimal n) }
        ensures { Extends self.old (before.now ++ decimal n) self.new }
    {
        let mut digits = Buffer::new();
        self.put(before);
        self.put(digits.format(n).as_bytes());
    }

    // The first line: exam number, table entries, slot count.
    fn put_exam_line(&mut self, exam: u64, t: usize, slots: usize)
        requires { (HasRoom self.old (exam_line exam t slots)) × (t ≤ 16) }
        ensures { Extends self.old (exam_line exam t slots) self.new }
    {
        self.put_number(b"exam ", exam);
        self.put_number(b" table ", 1u64 << t);
        self.put_number(b" slots ", slots as u64);
        self.put(b"\n");
    }

    // The line of a slot: slot, word count, block length.
    fn put_slot_line(&mut self, slot: u64, words: usize, bytes: usize)
        requires { HasRoom self.old (slot_line slot words bytes) }
        ensures { Extends self.old (slot_line slot words bytes) self.new }
    {
        self.put_number(b"", slot);
        self.put_number(b" ", words as u64);
        self.put_number(b" ", bytes as u64);
        self.put(b"\n");
    }

    // The lines of all slots, in file order.
    fn put_slot_lines(&mut self, file: &[u8], directory: &[u8])
        requires { (Directory file.now directory.now)
            × (HasRoom self.old (slot_lines (file_in file.now) (file_in file.now).entries)) }
        ensures { Extends self.old (slot_lines (file_in file.now) (file_in file.now).entries) self.new }
    {
        for entry in directory.chunks_exact(12) {
            let slot = words::get_bytes(entry, 0, 4);
            let block = checking::block_of(file, entry);
            self.put_slot_line(slot, block_checking::count(block), block.len());
        }
    }

    // The whole text of a file that is not refused.
    fn put_listing(&mut self, file: &[u8], trailer: Trailer)
        requires { Listable file.now trailer self.old }
        ensures { Extends self.old (listing (file_in file.now)) self.new }
    {
        let end = file.len() - 32;
        let exam = words::get_bytes(file, end + 8, 8);
        self.put_exam_line(exam, trailer.t, trailer.entries);
        self.put(b"slot words bytes\n");
        self.put_slot_lines(file, &file[trailer.start..end]);
    }
}

// Lists the exam file in `file`, as text at the start of `text`. Answers the text's length.
pub fn list(file: &[u8], text: &mut [u8]) -> Result<usize, Refusal>
    ensures { Lists file.now text.old (listed_told result) text.new }
{
    let trailer = checking::check_list(file, text.len())?;
    let mut whole = Text {
        bytes: text,
        length: 0,
    };
    whole.put_listing(file, trailer);
    Ok(whole.length)
}
