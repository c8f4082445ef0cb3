// The image goes to standard output, and whatever is to be said of it to standard error.
ghost use Rattle.std.specs.Prelude.{◌≡◌, ◌*◌, ◌≤◌, ◌<◌, length};
ghost use Rattle.ground.specs.Refusal.{told};
ghost use Rattle.machine.specs.Run.{ran};
ghost use Rattle.machine.specs.Machine.{memories};
ghost use Rattle.chip.specs.Fresh.{fresh, fresh_run};
ghost use Rattle.machine.specs.Lent.{left};

use crate::page::{page_rows, put_heading, put_page, rows_shown, whole_rows};
use crate::reach::reach;
use crate::{Memory, Wanted};
use chip::run::{Ran, run};
use console::say::{say_line, say_refused};
use ground::Refusal;
use report::to_levels;
use std::io;

// Whether a refusal is of the whole recording, and of no word.
fn is_of_whole(refusal: Refusal) -> bool {
    matches!(refusal, Refusal::BadLength | Refusal::BadTail)
}

// Says where the topmost vertex lies, if it lies above the rows that were in use.
fn say_above(rt: &impl Eprint, places: usize, bytes: &[u8], count: usize) {
    if let Some(above) = reach(places, bytes, count) {
        let row = above.height - 1;
        say_line(
            rt,
            format_args!(
                "show: a vertex lies in row {row}, and the memories have {} rows",
                above.rows
            ),
        );
    }
}

// Writes the heading and then page after page, from the top row down; an error tells that not all of it was taken.
fn write_image(rt: &impl Print, most: u16, line: u16, rows: usize, memory: &[u16]) -> io::Result<()>
    requires { 0 < line }
{
    let mut page = [0u8; 131072];
    let size = put_heading(most, line, rows, &mut page);
    rt.write_all(&page[..size])?;
    let mut below = rows;
    // No range in steps: the rows of a full page would be counted for the step, and once more, as many as are left at most, for the page.
    while 0 < below {
        let count = page_rows(line, below);
        let n = put_page(most, line, below, count, memory, &mut page);
        rt.write_all(&page[..n])?;
        below -= count;
    }
    Ok(())
}

// Writes the image in levels, which take the place of the numbers in `im`.
fn write_levels(
    rt: &(impl Print + Eprint),
    wanted: Wanted,
    line: u16,
    rows: usize,
    im: &mut [u16],
    zm: &[u16],
) -> io::Result<()>
    requires line_nonzero { 0 < line }
    requires line_in_bounds { rows * line ≤ length im.old }
{
    let kept = rows_shown(wanted.places.is_some(), line, rows, im, zm);
    if kept == 0 {
        say_line(rt, "show: no image, since every place is as at the start");
        return Ok(());
    }
    let n = kept * (line as usize);
    to_levels(wanted.memory == Memory::Depth, &mut im[..n], zm);
    write_image(rt, 255, line, kept, &im[..n])
}

// Writes what is wanted, if there is a whole row to show. (No step is passed in for the two ways: in levels the numbers of I give way, and as it stands a memory is
// only read.)
fn write_shown(
    rt: &(impl Print + Eprint),
    wanted: Wanted,
    line: u16,
    im: &mut [u16],
    zm: &mut [u16],
) -> io::Result<()> {
    let rows = whole_rows(line, im.len());
    if rows == 0 {
        say_line(
            rt,
            "show: no image, since a row has more places than the memory",
        );
        return Ok(());
    }
    if wanted.levels {
        return write_levels(rt, wanted, line, rows, im, zm);
    }
    match wanted.memory {
        Memory::Intensity => write_image(rt, 65535, line, rows, im),
        Memory::Depth => write_image(rt, 65535, line, rows, zm),
    }
}

// Draws the bytes on fresh memories, which are lent one by one here and below, as `run` takes them (docs/CALLS.md).
fn drawn(bytes: &[u8], im: &mut [u16], zm: &mut [u16]) -> Ran
    requires { memories im.old zm.old ≡ fresh (length im.old) }
    ensures { ran (told result.outcome) result.index result.sum result.registers (left im zm) ≡ fresh_run (length im.old) bytes.now }
{
    run(bytes, im, zm)
}

// Draws the bytes on fresh memories and writes the image. After a refused word it shows what stands.
pub(crate) fn write_drawn(
    rt: &(impl Print + Eprint),
    wanted: Wanted,
    bytes: &[u8],
    im: &mut [u16],
    zm: &mut [u16],
) -> io::Result<()>
    requires { memories im.old zm.old ≡ fresh (length im.old) }
{
    let end = drawn(bytes, im, zm);
    if let Err(refusal) = end.outcome {
        if is_of_whole(refusal) {
            let number = u64::from(refusal);
            say_line(
                rt,
                format_args!(
                    "show: refusal {number} of the whole recording, so that there is no image"
                ),
            );
            return Ok(());
        }
        say_refused(rt, "show", u64::from(refusal), end.index);
    }
    if end.registers.started == 0 {
        say_line(rt, "show: no image, since no INIT was accepted");
        return Ok(());
    }
    say_above(rt, im.len(), bytes, end.index as usize);
    write_shown(rt, wanted, end.registers.frame.line, im, zm)
}
