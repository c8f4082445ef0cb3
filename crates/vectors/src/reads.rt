// The read call, by value: what it tells, and whether the registers are as they were. It cannot change a memory, which it is lent to look at.
ghost use Rattle.std.specs.Prelude.{◌≤◌};

use crate::record::ready;
use chip::transfer::read;
use ground::number_of;
use registers::{Region, Registers};
use std::io;

// A read over memories of 256 and of Z places, I all 7 but for 9 at place 5: what it tells, and whether the registers moved on.
fn row<const Z: usize>(rt: &impl Print, name: &str, r: Registers) -> io::Result<()>
    requires { Z ≤ 256 }
{
    let mut im = [7u16; 256];
    let zm = [65535u16; Z];
    im[5] = 9;
    let reading = read(r, &im, &zm);
    let number = number_of(reading);
    let (pixel, after) = match reading {
        Ok(reading) => (reading.pixel, reading.registers),
        Err(_) => (0, r),
    };
    let came = if after == r {
        "all as it was"
    } else {
        "moved on"
    };
    println!(rt; "{name}: {number}, pixel {pixel}, {came}")
}

// A record with a region open from (5, 0) to (6, 0), and the next pixel.
fn open(way: u16, x: u16) -> Registers {
    let mut r = ready();
    r.region = Region {
        way,
        x0: 5,
        x1: 6,
        y1: 0,
        x,
        y: 0,
    };
    r
}

// The same before INIT, or with a parameter awaited.
fn hindered(way: u16, started: u16, subcommand: u16) -> Registers {
    let mut r = open(way, 5);
    r.started = started;
    r.parked.subcommand = subcommand;
    r
}

// Reads that are accepted.
fn accepted(rt: &impl Print) -> io::Result<()> {
    row::<256>(rt, "read, from I", open(2, 5))?;
    let mut deep = open(2, 5);
    deep.modes.hcontrol = 14;
    row::<256>(rt, "read, from Z", deep)?;
    let mut above = open(2, 5);
    above.region.y = 1;
    row::<256>(rt, "read, outside the memory", above)?;
    row::<256>(rt, "read, the last pixel", open(2, 6))
}

// Each number that refuses a read, and the order of the numbers.
pub(crate) fn rows(rt: &impl Print) -> io::Result<()> {
    accepted(rt)?;
    row::<255>(rt, "read, memories unlike", open(2, 5))?;
    row::<255>(rt, "read, memories unlike, before INIT", hindered(2, 0, 13))?;
    row::<256>(rt, "read, region's way 3", open(3, 5))?;
    row::<256>(rt, "read, before INIT", hindered(2, 0, 13))?;
    row::<256>(
        rt,
        "read, before INIT, with a parameter awaited",
        hindered(2, 0, 6),
    )?;
    row::<256>(rt, "read, with a parameter awaited", hindered(2, 1, 6))?;
    row::<256>(
        rt,
        "read, with a parameter awaited and no region",
        hindered(0, 1, 6),
    )?;
    row::<256>(rt, "read, no region", open(0, 5))?;
    row::<256>(rt, "read, a region to memory", open(1, 5))
}
