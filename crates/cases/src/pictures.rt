// Pictures (document 02, [1]): regions that are open, used up, against the direction or refused, and values that are not allowed.
use crate::row::row;
use std::io;

// A region of two pixels that is open to memory, and three pixels for it.
const PICTURE: [u32; 9] = [
    0xF0000, 0x90000, 0xD0001, 0xD0000, 0xD0000, 0xD0000, 0x00001, 0x00002, 0x00003,
];

// PTRN is taken while a region is open to memory, pixel by pixel, and else is 14.
fn transfers(rt: &impl Print) -> io::Result<()> {
    row(rt, "PTRN with no region", &[0xF0000, 0x00001], 14)?;
    row(rt, "PTRN on a region to memory", &PICTURE[..7], 0)?;
    row(rt, "PTRN on its last pixel", &PICTURE[..8], 0)?;
    row(rt, "PTRN after its last pixel", &PICTURE, 14)?;
    row(
        rt,
        "PTRN on a region from memory",
        &[
            0xF0000, 0x90001, 0xD0000, 0xD0000, 0xD0000, 0xD0000, 0x00001,
        ],
        14,
    )?;
    row(
        rt,
        "PTRN after INIT dropped the region",
        &[
            0xF0000, 0x90000, 0xD0000, 0xD0000, 0xD0000, 0xD0000, 0xF0000, 0x00001,
        ],
        14,
    )?;
    row(
        rt,
        "PTRN after a refused IMG, which keeps the region",
        &[
            0xF0000, 0x90000, 0xD0000, 0xD0000, 0xD0000, 0xD0000, 0x90002, 0x00001,
        ],
        0,
    )?;
    row(
        rt,
        "X after PTRN, on the strip that is open",
        &[
            0xF0000, 0x50000, 0x90000, 0xD0000, 0xD0000, 0xD0000, 0xD0000, 0x00001, 0x40001,
        ],
        0,
    )
}

// IMG has bits 0 and 2, its corners are at most 16383, and IMODE is 0.
fn values(rt: &impl Print) -> io::Result<()> {
    row(rt, "IMG with bit 2", &[0xF0000, 0x90004], 0)?;
    row(rt, "IMG with bit 1", &[0xF0000, 0x90002], 9)?;
    row(rt, "IMG's corner 16383", &[0xF0000, 0x90000, 0xD3FFF], 0)?;
    row(rt, "IMG's corner 16384", &[0xF0000, 0x90000, 0xD4000], 9)?;
    row(rt, "IMODE 0", &[0xF0000, 0xE0002, 0xD0000], 0)?;
    row(rt, "IMODE 1", &[0xF0000, 0xE0002, 0xD0001], 9)
}

// While a parameter is awaited all of them are 6; command A hex and AUX 11 are 5.
fn awaited(rt: &impl Print) -> io::Result<()> {
    row(
        rt,
        "IMG while a parameter is awaited",
        &[0xF0000, 0xE0001, 0x90000],
        6,
    )?;
    row(rt, "AUX 2 there", &[0xF0000, 0xE0001, 0xE0002], 6)?;
    row(rt, "AUX 11 there", &[0xF0000, 0xE0001, 0xE000B], 5)?;
    row(rt, "command A there", &[0xF0000, 0xE0001, 0xA0000], 5)?;
    row(
        rt,
        "PTRN while a corner is awaited",
        &[0xF0000, 0x90000, 0xD0000, 0xD0000, 0xD0000, 0x00001],
        6,
    )
}

pub(crate) fn rows(rt: &impl Print) -> io::Result<()> {
    transfers(rt)?;
    values(rt)?;
    awaited(rt)
}
