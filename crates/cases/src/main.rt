// Document 01's examples that are run, refusals that are easy to trip on, as document 02 changes them, and the sheet's 2-D example. Each row is
// some words from reset, as hexadecimal command and data, and the number that the last of them should be given, or how many of its pixels should
// pass. Its line tells the number that the chip gives as well: the stored output is met only where the two agree in every row. The first line
// that cannot be written ends it.
#![tactic(auto)]

mod answer;
mod pictures;
mod row;

use console::say::tell;
use row::{passed, row, unlike};
use std::io;

// Y 16383 accepted, 16384 is 9; window 16384 accepted, 16385 is 9, for the first border and for the last: document 02's [12] moves document
// 01's cases there.
fn values(rt: &impl Print) -> io::Result<()> {
    row(rt, "Y 16383", &[0xF0000, 0x33FFF], 0)?;
    row(rt, "Y 16384", &[0xF0000, 0x34000], 9)?;
    row(rt, "window 16384", &[0xF0000, 0xE0006, 0xD4000], 0)?;
    row(rt, "window 16385", &[0xF0000, 0xE0006, 0xD4001], 9)?;
    row(
        rt,
        "window 16384, the last",
        &[0xF0000, 0xE0006, 0xD0000, 0xD4000, 0xD4000, 0xD4000],
        0,
    )?;
    row(
        rt,
        "window 16385, the last",
        &[0xF0000, 0xE0006, 0xD0000, 0xD4000, 0xD4000, 0xD4001],
        9,
    )
}

// X 9000 with no figure open is 10 (document 01 says 9), and X 16384 there is 9. An X or PX that the open figure does not take is 10, by the line
// mode of that moment; the figure stays open.
fn figures(rt: &impl Print) -> io::Result<()> {
    row(rt, "X 9000 with no figure open", &[0xF0000, 0x42328], 10)?;
    row(rt, "X 16384 with no figure open", &[0xF0000, 0x44000], 9)?;
    row(rt, "X 0 with no figure open", &[0xF0000, 0x40000], 10)?;
    row(rt, "PX 0 with no figure open", &[0xF0000, 0xB0000], 10)?;
    row(
        rt,
        "X on a line in mode 1",
        &[0xF0000, 0x80000, 0x40000],
        10,
    )?;
    row(
        rt,
        "PX after that X",
        &[0xF0000, 0x80000, 0x40000, 0xB0000],
        0,
    )?;
    row(
        rt,
        "X on a line, in mode 2 since LX",
        &[0xF0000, 0x80000, 0xE0001, 0xD0002, 0x40000],
        0,
    )?;
    row(
        rt,
        "PX on a line, in mode 2 since LX",
        &[0xF0000, 0x80000, 0xE0001, 0xD0002, 0xB0000],
        10,
    )?;
    row(rt, "PX on a strip", &[0xF0000, 0x50000, 0xB0000], 10)?;
    row(rt, "PX on a fan", &[0xF0000, 0x60000, 0xB0000], 10)
}

// While a parameter is awaited AUX 13 is 6, and so is AUX 7 since document 02 (document 01 says 5); AUX 11, which is not modelled, is 5 there:
// the lowest number that applies. INIT may come at any time.
fn awaited(rt: &impl Print) -> io::Result<()> {
    row(
        rt,
        "AUX 13 while a parameter is awaited",
        &[0xF0000, 0xE0001, 0xE000D],
        6,
    )?;
    row(rt, "AUX 7 there", &[0xF0000, 0xE0001, 0xE0007], 6)?;
    row(rt, "AUX 11 there", &[0xF0000, 0xE0001, 0xE000B], 5)?;
    row(rt, "command 7 there", &[0xF0000, 0xE0001, 0x70000], 4)?;
    row(rt, "command C there", &[0xF0000, 0xE0001, 0xC0000], 4)?;
    row(rt, "command 0 there", &[0xF0000, 0xE0001, 0x00000], 6)?;
    row(rt, "Y 16384 there", &[0xF0000, 0xE0001, 0x34000], 6)?;
    row(rt, "INIT there", &[0xF0000, 0xE0001, 0xF0000], 0)?;
    row(
        rt,
        "PARM after that INIT",
        &[0xF0000, 0xE0001, 0xF0000, 0xD0002],
        7,
    )
}

// SECTION, AUX 7, takes one parameter, which may be any; of sectioning's two bits of ZCONTROL, 5 is allowed and 4, the variable kind, is not.
fn sections(rt: &impl Print) -> io::Result<()> {
    row(rt, "AUX 7", &[0xF0000, 0xE0007], 0)?;
    row(rt, "SECTION 65535", &[0xF0000, 0xE0007, 0xDFFFF], 0)?;
    row(
        rt,
        "PARM after it",
        &[0xF0000, 0xE0007, 0xDFFFF, 0xD0000],
        7,
    )?;
    row(rt, "ZCONTROL bit 5", &[0xF0000, 0xE0003, 0xD0020], 0)?;
    row(rt, "ZCONTROL bit 4", &[0xF0000, 0xE0003, 0xD0010], 9)?;
    row(rt, "ZCONTROL bits 5 and 4", &[0xF0000, 0xE0003, 0xD0030], 9)
}

// A refused parameter stays awaited, and a refused INIT leaves one awaited.
fn refused(rt: &impl Print) -> io::Result<()> {
    row(rt, "LMODE 3", &[0xF0000, 0xE0001, 0xD0003], 9)?;
    row(
        rt,
        "LMODE 2 after it",
        &[0xF0000, 0xE0001, 0xD0003, 0xD0002],
        0,
    )?;
    row(
        rt,
        "PARM after both",
        &[0xF0000, 0xE0001, 0xD0003, 0xD0002, 0xD0002],
        7,
    )?;
    row(
        rt,
        "INIT of line code 16 while a parameter is awaited",
        &[0xF0000, 0xE0001, 0xF1000],
        9,
    )?;
    row(
        rt,
        "AUX 13 after it",
        &[0xF0000, 0xE0001, 0xF1000, 0xE000D],
        6,
    )?;
    row(
        rt,
        "LMODE 2 after both",
        &[0xF0000, 0xE0001, 0xF1000, 0xE000D, 0xD0002],
        0,
    )
}

// With nothing open and nothing awaited: an AUX number has 16 bits, PARM is 7 whatever its data, and a command above 15 is 1.
fn idle(rt: &impl Print) -> io::Result<()> {
    row(rt, "AUX 0102 hex", &[0xF0000, 0xE0102], 8)?;
    row(rt, "PARM 3 with none awaited", &[0xF0000, 0xD0003], 7)?;
    row(rt, "command 16", &[0xF0000, 0x100000], 1)
}

// Before the first accepted INIT every word but INIT is 3, save one of a command above 15.
fn cold(rt: &impl Print) -> io::Result<()> {
    row(rt, "Y 0 before INIT", &[0x30000], 3)?;
    row(rt, "X 16384 before INIT", &[0x44000], 3)?;
    row(rt, "command 7 before INIT", &[0x70000], 3)?;
    row(rt, "AUX 13 before INIT", &[0xE000D], 3)?;
    row(rt, "PARM 0 before INIT", &[0xD0000], 3)?;
    row(rt, "Y 0 after a refused INIT", &[0xF1000, 0x30000], 3)?;
    row(rt, "command 16 before INIT", &[0x100000], 1)
}

// Over memories of two lengths every word is 2, save one of a command above 15.
fn memories(rt: &impl Print) -> io::Result<()> {
    unlike(rt, "INIT, memories unlike", &[0xF0000], 2)?;
    unlike(rt, "Y 0 before INIT, memories unlike", &[0x30000], 2)?;
    unlike(rt, "command 7, memories unlike", &[0x70000], 2)?;
    unlike(rt, "command 16, memories unlike", &[0x100000], 1)
}

// The sheet's example "2-D Line Drawing", as recordings/sheet-2d.txt has it: the second of its two lines starts at the second LX and sends no
// LSTATUS. A line starts visible (document 02, [5]).
const SHEET: [u32; 23] = [
    0xF0000, 0xE0001, 0xD0000, 0xE0004, 0xD0006, 0x30000, 0x80000, 0xE000C, 0xD0000, 0x30000,
    0xB0004, 0x30002, 0xB0004, 0xE000C, 0xD0010, 0x30002, 0xB0000, 0x30004, 0x80000, 0x30006,
    0xB0002, 0x30004, 0xB0004,
];

// Both segments of the second line are drawn. With INV 1 after LX there is a hop; INV 1 before LX, and INIT's, hide nothing.
fn starts(rt: &impl Print) -> io::Result<()> {
    passed(
        rt,
        "pixels of the sheet's 2-D example, first line to point 4",
        &SHEET[..17],
        4,
    )?;
    passed(rt, "second line to point 2", &SHEET[..21], 3)?;
    passed(rt, "second line to point 3", &SHEET, 2)?;
    passed(
        rt,
        "pixels of a line's first segment, INV 1 after LX",
        &[0xF0000, 0x80000, 0xE000C, 0xD0020, 0xB0004],
        0,
    )?;
    passed(
        rt,
        "INV 1 before LX",
        &[0xF0000, 0xE000C, 0xD0020, 0x80000, 0xB0004],
        5,
    )?;
    passed(
        rt,
        "in mode 2, LSTATUS not sent",
        &[0xF0000, 0xE0001, 0xD0002, 0x80000, 0x40004],
        5,
    )
}

// All of these.
fn rows(rt: &impl Print) -> io::Result<()> {
    values(rt)?;
    figures(rt)?;
    awaited(rt)?;
    sections(rt)?;
    refused(rt)?;
    idle(rt)?;
    cold(rt)?;
    memories(rt)?;
    starts(rt)?;
    pictures::rows(rt)
}

fn main(rt: HostRuntime) {
    tell(&rt, "cases: standard output", rows(&rt));
}
