// Packing and unpacking with a lent output, and two of the entries for C.
use crate::print::{is_all, print_call};
use std::io;
use stream::entries::{dextolumen_word_at, dextolumen_word_count};
use stream::read::unpack;
use stream::write::pack;

// Packs words into five bytes that were lent.
fn packed(rt: &impl Print, name: &str, words: &[u32]) -> io::Result<()> {
    let mut out = [0xA5u8; 5];
    let answer = pack(words, &mut out);
    print_call(rt, name, answer.map(|n| n as u64), is_all(&out, 0xA5))
}

// Unpacks bytes into two words that were lent. (Beside `packed`: the two calls take and lend different things, so that all of it but the last line would be passed in.)
fn unpacked(rt: &impl Print, name: &str, bytes: &[u8]) -> io::Result<()> {
    let mut out = [0xA5A5A5u32; 2];
    let answer = unpack(bytes, &mut out);
    print_call(rt, name, answer.map(|n| n as u64), is_all(&out, 0xA5A5A5))
}

// Prints what an entry answered.
fn entry(rt: &impl Print, name: &str, answer: u64) -> io::Result<()> {
    println!(rt; "{name}: {answer}")
}

// The packer checks 1 and then 13.
fn packer(rt: &impl Print) -> io::Result<()> {
    packed(rt, "pack, two words", &[0xF0000, 0xFFFFF])?;
    packed(rt, "pack, a word of 1048576", &[0xF0000, 0x100000])?;
    packed(
        rt,
        "pack, three words into five bytes",
        &[0xF0000, 0xE0004, 0xD0006],
    )?;
    packed(rt, "pack, both", &[0x100000, 0xE0004, 0xD0006])
}

// The unpacker checks 11, then 12, then 13.
fn unpacker(rt: &impl Print) -> io::Result<()> {
    unpacked(rt, "unpack, 5 bytes", &[0xF0, 0x00, 0x0E, 0x00, 0x04])?;
    unpacked(rt, "unpack, 4 bytes", &[0xF0, 0x00, 0x0E, 0x00])?;
    unpacked(rt, "unpack, last half byte 1", &[0xF0, 0x00, 0x01])?;
    unpacked(
        rt,
        "unpack, three words into two",
        &[0xF0, 0x00, 0x0E, 0x00, 0x04, 0xD0, 0x00, 0x60],
    )?;
    unpacked(
        rt,
        "unpack, 9 bytes into two words",
        &[0xF0, 0x00, 0x0E, 0x00, 0x04, 0xD0, 0x00, 0x60, 0x01],
    )?;
    unpacked(
        rt,
        "unpack, last half byte 1, three words into two",
        &[0xF0, 0x00, 0x0E, 0x00, 0x04, 0xD0, 0x00, 0x61],
    )
}

// The entries refuse with 2^63 and the number: 11, 12, and for a place past the last word 13.
fn entries(rt: &impl Print) -> io::Result<()> {
    entry(
        rt,
        "word_count, 5 bytes",
        dextolumen_word_count(&[0xF0, 0x00, 0x0E, 0x00, 0x04]),
    )?;
    entry(
        rt,
        "word_count, 4 bytes",
        dextolumen_word_count(&[0xF0, 0x00, 0x0E, 0x00]),
    )?;
    entry(
        rt,
        "word_count, last half byte 1",
        dextolumen_word_count(&[0xF0, 0x00, 0x01]),
    )?;
    entry(
        rt,
        "word_at 1, 5 bytes",
        dextolumen_word_at(&[0xF0, 0x00, 0x0E, 0x00, 0x04], 1),
    )?;
    entry(
        rt,
        "word_at 2, 5 bytes",
        dextolumen_word_at(&[0xF0, 0x00, 0x0E, 0x00, 0x04], 2),
    )?;
    entry(rt, "word_at 0, no bytes", dextolumen_word_at(&[], 0))?;
    entry(
        rt,
        "word_at 0, 4 bytes",
        dextolumen_word_at(&[0xF0, 0x00, 0x0E, 0x00], 0),
    )?;
    entry(
        rt,
        "word_at 0, last half byte 1",
        dextolumen_word_at(&[0xF0, 0x00, 0x01], 0),
    )?;
    entry(
        rt,
        "word_at 9, last half byte 1",
        dextolumen_word_at(&[0xF0, 0x00, 0x01], 9),
    )
}

// All of these.
pub(crate) fn rows(rt: &impl Print) -> io::Result<()> {
    packer(rt)?;
    unpacker(rt)?;
    entries(rt)
}
