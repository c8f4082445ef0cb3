// Records that break one bound each (docs/REGISTERS.md), from one that is ready to draw: the word that would draw is refused.
use crate::record::ready;
use crate::word::row;
use registers::{Parked, Registers};
use std::io;

// A word that would draw, from a record that breaks a bound. (No closure breaks it in here: what it asks for and leaves would be said here besides, and a line that sets a number says as
// plainly which.)
fn broken(rt: &impl Print, name: &str, r: Registers) -> io::Result<()> {
    row::<256>(rt, name, r, 4, 8)
}

// Started, the line length: too short, too long, no multiple of 64; and the layout.
fn frame(rt: &impl Print) -> io::Result<()> {
    let mut a = ready();
    a.started = 2;
    broken(rt, "bounds, started 2", a)?;
    let mut b = ready();
    b.frame.line = 192;
    broken(rt, "bounds, line length 192", b)?;
    let mut c = ready();
    c.frame.line = 8832;
    broken(rt, "bounds, line length 8832", c)?;
    let mut d = ready();
    d.frame.line = 257;
    broken(rt, "bounds, line length 257", d)?;
    let mut e = ready();
    e.frame.layout = 8;
    broken(rt, "bounds, layout 8", e)
}

// The words of the modes.
fn modes(rt: &impl Print) -> io::Result<()> {
    let mut a = ready();
    a.modes.pmode = 2;
    broken(rt, "bounds, PMODE 2", a)?;
    let mut b = ready();
    b.modes.lmode = 3;
    broken(rt, "bounds, LMODE 3", b)?;
    let mut c = ready();
    c.modes.zcontrol = 0x0041;
    broken(rt, "bounds, ZCONTROL 0041 hex", c)?;
    let mut d = ready();
    d.modes.hcontrol = 0x0007;
    broken(rt, "bounds, HCONTROL 0007 hex", d)?;
    let mut e = ready();
    e.modes.lstatus = 0x0001;
    broken(rt, "bounds, LSTATUS 0001 hex", e)
}

// The window's borders.
fn window(rt: &impl Print) -> io::Result<()> {
    let mut a = ready();
    a.window.left = 16385;
    broken(rt, "bounds, left 16385", a)?;
    let mut b = ready();
    b.window.top = 16385;
    broken(rt, "bounds, top 16385", b)?;
    let mut c = ready();
    c.window.right = 16385;
    broken(rt, "bounds, right 16385", c)?;
    let mut d = ready();
    d.window.bottom = 16385;
    broken(rt, "bounds, bottom 16385", d)
}

// The Y register, and the open figure.
fn figure(rt: &impl Print) -> io::Result<()> {
    let mut a = ready();
    a.latch.y = 16384;
    broken(rt, "bounds, Y 16384", a)?;
    let mut b = ready();
    b.figure.shape = 4;
    broken(rt, "bounds, shape 4", b)?;
    let mut c = ready();
    c.figure.pair = 2;
    broken(rt, "bounds, pair 2", c)?;
    let mut d = ready();
    d.figure.first.x = 16384;
    broken(rt, "bounds, first x 16384", d)?;
    let mut e = ready();
    e.figure.first.y = 16384;
    broken(rt, "bounds, first y 16384", e)?;
    let mut f = ready();
    f.figure.second.x = 16384;
    broken(rt, "bounds, second x 16384", f)?;
    let mut g = ready();
    g.figure.second.y = 16384;
    broken(rt, "bounds, second y 16384", g)?;
    let mut h = ready();
    h.figure.steps = 32;
    broken(rt, "bounds, steps 32", h)?;
    let mut i = ready();
    i.figure.dashed = 2;
    broken(rt, "bounds, dashed 2", i)
}

// The region.
fn region(rt: &impl Print) -> io::Result<()> {
    let mut a = ready();
    a.region.way = 3;
    broken(rt, "bounds, region's way 3", a)?;
    let mut b = ready();
    b.region.x0 = 16384;
    broken(rt, "bounds, region's x0 16384", b)?;
    let mut c = ready();
    c.region.x1 = 16384;
    broken(rt, "bounds, region's x1 16384", c)?;
    let mut d = ready();
    d.region.y1 = 16384;
    broken(rt, "bounds, region's y1 16384", d)?;
    let mut e = ready();
    e.region.x = 16384;
    broken(rt, "bounds, region's x 16384", e)?;
    let mut f = ready();
    f.region.y = 16384;
    broken(rt, "bounds, region's y 16384", f)
}

// What is awaited: numbers that take no parameters, and as many come as they take.
fn parked(rt: &impl Print) -> io::Result<()> {
    awaited(rt, "bounds, AUX 11 awaited", 11, 0)?;
    awaited(rt, "bounds, number 16 awaited", 16, 0)?;
    awaited(rt, "bounds, none awaited and 1 come", 13, 1)?;
    awaited(rt, "bounds, LMODE awaited and 1 come", 1, 1)?;
    awaited(rt, "bounds, IMODE awaited and 1 come", 2, 1)?;
    awaited(rt, "bounds, COLOR awaited and 2 come", 8, 2)?;
    awaited(rt, "bounds, WINDOW awaited and 5 come", 6, 5)?;
    awaited(rt, "bounds, IMG to memory awaited and 4 come", 14, 4)?;
    awaited(rt, "bounds, IMG from memory awaited and 4 come", 15, 4)
}

// A record that awaits parameters of an AUX number, of which some have come.
fn awaited(rt: &impl Print, name: &str, subcommand: u16, came: u16) -> io::Result<()> {
    let mut r = ready();
    r.parked.subcommand = subcommand;
    r.parked.came = came;
    broken(rt, name, r)
}

// A record that awaits parameters of WINDOW or IMG, of which some have come, with these parked.
fn values(
    rt: &impl Print,
    name: &str,
    subcommand: u16,
    came: u16,
    values: [u16; 5],
) -> io::Result<()> {
    let mut r = ready();
    r.parked = Parked {
        subcommand,
        came,
        values,
    };
    broken(rt, name, r)
}

// Values that have come, one by one; and one that has not, which is not judged, so that the word is refused since it is no parameter.
fn parameters(rt: &impl Print) -> io::Result<()> {
    values(rt, "bounds, parked left 16385", 6, 1, [16385, 0, 0, 0, 0])?;
    values(rt, "bounds, parked top 16385", 6, 2, [0, 16385, 0, 0, 0])?;
    values(rt, "bounds, parked right 16385", 6, 3, [0, 0, 16385, 0, 0])?;
    values(rt, "bounds, parked bottom 16385", 6, 4, [0, 0, 0, 16385, 0])?;
    values(rt, "bounds, parked x0 16384", 14, 1, [16384, 0, 0, 0, 0])?;
    values(rt, "bounds, parked y0 16384", 15, 2, [0, 16384, 0, 0, 0])?;
    values(rt, "bounds, parked x1 16384", 14, 3, [0, 0, 16384, 0, 0])?;
    values(
        rt,
        "bounds, 16384 for y1 that has not come",
        15,
        3,
        [0, 0, 0, 16384, 0],
    )
}

// All bounds, one by one.
pub(crate) fn rows(rt: &impl Print) -> io::Result<()> {
    frame(rt)?;
    modes(rt)?;
    window(rt)?;
    figure(rt)?;
    parked(rt)?;
    parameters(rt)?;
    region(rt)
}
