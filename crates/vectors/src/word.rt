// One word through `step`, over memories that it may change.
ghost use Rattle.std.specs.Prelude.{◌≤◌};

use crate::print::{is_all, print_call, print_counted};
use crate::record::ready;
use chip::run::run;
use chip::step::step;
use ground::number_of;
use registers::Registers;
use std::io;

// A word over memories of 256 and of Z places.
pub(crate) fn row<const Z: usize>(
    rt: &impl Print,
    name: &str,
    r: Registers,
    command: u8,
    data: u16,
) -> io::Result<()>
    requires { Z ≤ 256 }
{
    let mut im = [7u16; 256];
    let mut zm = [65535u16; Z];
    let answer = step(r, command, data, &mut im, &mut zm);
    let after = answer.map_or(r, |answer| answer.registers);
    let kept = (after == r) & is_all(&im, 7) & is_all(&zm, 65535);
    print_call(rt, name, answer.map(|answer| answer.passed), kept)
}

// A stream over memories of two lengths. What it counts is its index and its sum.
fn run_unlike(rt: &impl Print, name: &str, bytes: &[u8]) -> io::Result<()> {
    let mut im = [7u16; 256];
    let mut zm = [65535u16; 255];
    let ran = run(bytes, &mut im, &mut zm);
    let kept = is_all(&im, 7) & is_all(&zm, 65535);
    let count = ran.index.wrapping_add(ran.sum);
    print_counted(rt, name, number_of(ran.outcome), count, kept)
}

// A word that draws; a command above 15; memories of two lengths.
pub(crate) fn rows(rt: &impl Print) -> io::Result<()> {
    row::<256>(rt, "step, X 8 on a line", ready(), 4, 8)?;
    row::<256>(rt, "step, command 16", ready(), 16, 8)?;
    row::<256>(rt, "step, command 255", ready(), 255, 8)?;
    row::<256>(
        rt,
        "step, command 16 before INIT",
        Registers::reset(),
        16,
        8,
    )?;
    row::<255>(rt, "step, memories unlike", ready(), 4, 8)?;
    row::<255>(rt, "step, INIT, memories unlike", ready(), 15, 0)?;
    row::<255>(rt, "step, command 16, memories unlike", ready(), 16, 8)?;
    run_unlike(rt, "run, memories unlike", &[0xF0, 0x00, 0x00])?;
    run_unlike(rt, "run, no words, memories unlike", &[])?;
    run_unlike(
        rt,
        "run, 4 bytes, memories unlike",
        &[0xF0, 0x00, 0x00, 0x00],
    )?;
    run_unlike(
        rt,
        "run, last half byte 1, memories unlike",
        &[0xF0, 0x00, 0x01],
    )
}
