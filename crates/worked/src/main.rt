// Runs the worked cases of which C is not answered all: the count of check, what open tells of a file,
// and the part of a file that find hands back. Prints what went in and what came out, bytes in hex and
// all other numbers in decimal. The file stdout beside src/ holds what must be printed. tests/worked.c
// runs these and all other cases from C.
//
// The prover pays for each lend to a call. So the cases here are few, and the files are written out.
#![tactic(auto)]

use answers::number_told;
use std::io;

fn show_text(rt: &impl Print, text: &str) -> io::Result<()> {
    print!(rt; "{text}")
}

// A label and a number.
fn labelled(rt: &impl Print, label: &str, n: u64) -> io::Result<()> {
    print!(rt; "{label}{n}")
}

// A byte in hex after a space.
fn hex(rt: &impl Print, byte: u8) -> io::Result<()> {
    print!(rt; " {byte:02x}")
}

// Each byte.
fn show_bytes(rt: &impl Print, bytes: &[u8]) -> io::Result<()> {
    for b in bytes {
        hex(rt, *b)?;
    }
    Ok(())
}

// Checks a block, and prints the answer.
fn check(rt: &impl Print, block: &[u8]) -> io::Result<()> {
    show_text(rt, "check")?;
    show_bytes(rt, block)?;
    let checked = blocks::check(block);
    labelled(rt, ": answers ", u64::from(number_told(&checked)))?;
    labelled(rt, ", count ", checked.unwrap_or(0) as u64)?;
    show_text(rt, "\n")
}

// The ten bytes of word 1 with the last byte 00: a padded code, which no packer writes. Then a block as
// it is, and with a byte added.
fn checks(rt: &impl Print) -> io::Result<()> {
    check(rt, b"\x01\x00\x00\x00\x0A\x00\x00\x00\x67\x00")?;
    check(rt, b"\x03\x00\x00\x00\x0B\x00\x00\x00\x6F\xF7\x01")?;
    check(rt, b"\x03\x00\x00\x00\x0B\x00\x00\x00\x6F\xF7\x01\x00")
}

// Opens the first bytes of a buffer, and prints the answer.
fn open(rt: &impl Print, file: &[u8], length: usize, exam: u64) -> io::Result<()> {
    labelled(rt, "open ", length as u64)?;
    labelled(rt, " bytes for exam ", exam)?;
    let opened = exams::open(file, length, exam);
    labelled(rt, ": answers ", u64::from(number_told(&opened)))?;
    if let Ok(trailer) = opened {
        labelled(rt, ", t ", trailer.t as u64)?;
        labelled(rt, ", entries ", trailer.entries as u64)?;
        labelled(rt, ", directory at ", trailer.start as u64)?;
    }
    show_text(rt, "\n")
}

// Finds a slot, and prints its block.
fn find(rt: &impl Print, file: &[u8], length: usize, exam: u64, slot: u32) -> io::Result<()> {
    let mut number: u32 = 99;
    labelled(rt, "find slot ", slot as u64)?;
    labelled(rt, " of exam ", exam)?;
    let block = exams::find(file, length, exam, slot, &mut number);
    labelled(rt, ": answers ", number as u64)?;
    show_bytes(rt, block)?;
    show_text(rt, "\n")
}

// The file of 53 bytes, and free room behind it: exam 7, t 10, and the one word 0 in slot 3.
fn one_map(rt: &impl Print) -> io::Result<()> {
    let file = b"\x01\x00\x00\x00\x09\x00\x00\x00\x77\
        \x03\x00\x00\x00\x00\x00\x00\x00\x09\x00\x00\x00\
        coil\x01\x00\x0A\x00\x07\x00\x00\x00\x00\x00\x00\x00\
        \x2C\x00\x00\x00\x01\x00\x00\x00\x35\x00\x00\x00\x00\x00\x00\x00\
        \xEE\xEE\xEE\xEE\xEE\xEE\xEE\xEE";
    open(rt, file, 53, 7)?;
    find(rt, file, 53, 7, 3)
}

// The file of 101 bytes: one map, whose block holds the bytes of a directory and a trailer. Its first
// 56 bytes open.
fn cut(rt: &impl Print) -> io::Result<()> {
    let file = b"\x07\x00\x00\x00\x39\x00\x00\x00\x60\x31\x00\x07\
        \x01\x02\x03\x04\x00\x00\x00\x00\x0C\x00\x00\x00\
        coil\x01\x00\x00\x00\x10\x11\x12\x13\x14\x15\x16\x17\
        \x2C\x00\x00\x00\x01\x00\x00\x00\x38\x00\x00\x00\x00\x00\x00\x00\
        \x01\
        \x03\x00\x00\x00\x00\x00\x00\x00\x39\x00\x00\x00\
        coil\x01\x00\x00\x00\x10\x11\x12\x13\x14\x15\x16\x17\
        \x2C\x00\x00\x00\x01\x00\x00\x00\x65\x00\x00\x00\x00\x00\x00\x00";
    open(rt, file, 56, 0x1716151413121110)
}

// The file of 74 bytes: exam 7, t 1, and the one word 0 in slots 4 and 5.
fn two_maps(rt: &impl Print) -> io::Result<()> {
    let file = b"\x01\x00\x00\x00\x09\x00\x00\x00\x77\
        \x01\x00\x00\x00\x09\x00\x00\x00\x77\
        \x04\x00\x00\x00\x00\x00\x00\x00\x09\x00\x00\x00\
        \x05\x00\x00\x00\x09\x00\x00\x00\x09\x00\x00\x00\
        coil\x01\x00\x01\x00\x07\x00\x00\x00\x00\x00\x00\x00\
        \x38\x00\x00\x00\x02\x00\x00\x00\x4A\x00\x00\x00\x00\x00\x00\x00";
    open(rt, file, 74, 7)
}

// The file of 75 bytes, and free room behind it: exam 7, t 1, the word 0 in slot 0 and the word 1 in
// slot 2^32 - 1. Finding these, another slot, and another exam number.
fn lowest_and_highest_slot(rt: &impl Print) -> io::Result<()> {
    let file = b"\x01\x00\x00\x00\x09\x00\x00\x00\x77\
        \x01\x00\x00\x00\x0A\x00\x00\x00\x67\x01\
        \x00\x00\x00\x00\x00\x00\x00\x00\x09\x00\x00\x00\
        \xFF\xFF\xFF\xFF\x09\x00\x00\x00\x0A\x00\x00\x00\
        coil\x01\x00\x01\x00\x07\x00\x00\x00\x00\x00\x00\x00\
        \x38\x00\x00\x00\x02\x00\x00\x00\x4B\x00\x00\x00\x00\x00\x00\x00\
        \xEE\xEE\xEE\xEE\xEE\xEE\xEE\xEE";
    find(rt, file, 75, 7, 0)?;
    find(rt, file, 75, 7, 0xFFFFFFFF)?;
    find(rt, file, 75, 7, 1)?;
    find(rt, file, 75, 8, 0)
}

fn main(rt: HostRuntime) -> io::Result<()> {
    checks(&rt)?;
    one_map(&rt)?;
    cut(&rt)?;
    two_maps(&rt)?;
    lowest_and_highest_slot(&rt)
}
