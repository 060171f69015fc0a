// The rules of an exam file. This crate has no function: its definitions are in specs/, their laws and
// what is promised of them in proofs/. Here are the structs that both the rules and the code speak of.
#![tactic(auto)]

use answers::Refusal;

// What opening tells of a file: the edition, t, the number of entries, and where the directory
// starts.
#[derive(Clone, Copy)]
pub struct Trailer {
    pub edition: usize,
    pub t: usize,
    pub entries: usize,
    pub start: usize,
}

// Where the block of a slot stands in a file, and its size.
#[derive(Clone, Copy, Default)]
pub struct BlockPlace {
    pub offset: usize,
    pub size: usize,
}

// What append_all is told of a map: its slot, its first word and its word count in the one lent word
// buffer. C lays it out so too.
#[repr(C)]
#[derive(Clone, Copy)]
pub struct Record {
    pub slot: u32,
    pub first: usize,
    pub count: usize,
}

// How far append_all came: how many maps went in, the file's length then, or 0, and why it went no
// further, where it was refused.
#[derive(Clone, Copy)]
pub struct Progress {
    pub appended: usize,
    pub length: usize,
    pub refused: Option<Refusal>,
}

// What salvage made: the new file's length, how many blocks it kept, how many of the old bytes it left
// over, and that the slots are renumbered.
#[derive(Clone, Copy, Default)]
pub struct SalvagedFile {
    pub length: usize,
    pub kept: usize,
    pub left_over: usize,
    pub renumbered: bool,
}
