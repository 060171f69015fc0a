// Why a call is refused, and the number that says so. How checks follow one another, and what a refusal
// leaves, are definitions in specs/, with their laws in proofs/.
#![tactic(auto)]

ghost use Rattle.std.specs.Prelude.{◌≡◌};
ghost use Rattle.answers.specs.Refusals.{refusal_number, number_told};

// The reasons for a refusal, each with its number. README says of each call which it gives, and when.
#[derive(Clone, Copy, Debug, PartialEq, Eq)]
pub enum Refusal {
    // The tables differ in length, or have none that a table, or this file's, may have.
    Tables = 1,
    // More words than a block may have; for the packer, more bytes than it takes.
    TooManyWords = 2,
    // Not enough room in what was lent, or in a file.
    NoRoom = 3,
    // Too few bytes for a block or a file, a length beyond its buffer, or input that is not whole words.
    TooShort = 4,
    // A block's length field is not what it should be.
    Lengths = 5,
    // The last half of an odd count is not 7.
    Filler = 6,
    // The trailer breaks a rule, or the file is over the limit; at a new file, t is above 16.
    Trailer = 7,
    // The exam number is 0, or not the one asked for.
    ExamNumber = 8,
    // The directory breaks a rule.
    Directory = 9,
    // The slot is not in the file.
    NoSuchSlot = 10,
    // The slot is not above the last.
    SlotNotAbove = 11,
    // The file has 1,024 entries already.
    TooManyEntries = 12,
    // A code of the block is padded.
    Padded = 13,
    // A record's words are not all among those that were lent.
    RecordOutside = 15,
}

impl From<Refusal> for u32 {
    ghost from_gives = { λ refusal number. number ≡ refusal_number refusal };

    fn from(refusal: Refusal) -> u32 {
        refusal as u32
    }
}

// The number that an answer tells: 0, done, or the refusal's.
pub fn number_told<T>(answer: &Result<T, Refusal>) -> u32
    ensures { result ≡ number_told answer.now }
{
    match answer {
        Ok(_) => 0,
        Err(refusal) => u32::from(*refusal),
    }
}
