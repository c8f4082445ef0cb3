// The squares of a picture that changed, for viewers that fetch only those: one call lists them, and one copies them. specs/Squares.antt says which
// squares remain, specs/Change.antt what a difference is, specs/Copy.antt what copying is, specs/Calls.antt what the calls tell and leave.
#![tactic(auto)]

mod change;
mod copy;
mod found;
mod pictures;
mod quarter;
mod size;

ghost use Rattle.std.specs.Prelude.{◌≡◌, ◌≤◌, length};
ghost use Rattle.stream.specs.Calls.{over, answer};
ghost use Rattle.ground.specs.Refusal.{encoded};
ghost use Rattle.squares.specs.Calls.{listing, copying};

use crate::copy::{are_squares, copy_listed};
use crate::found::Found;
use crate::pictures::Pictures;
use crate::quarter::quarter;
use crate::size::{Corner, Size};
use ground::{Refusal, encoded};

// Numbers, over the front of `out`. (A loop: std's copy asks by addresses whether memories overlap, which web/build refuses; it compiles the code of an
// archive for a processor with addresses of another size.)
fn write(squares: &[u32], out: &mut [u32])
    requires { length squares.now ≤ length out.old }
    ensures { out.new ≡ over squares.now out.old }
{
    for i in 0..squares.len() {
        out[i] = squares[i];
    }
}

// Lists the squares of side 8 in which two pictures differ, and answers how many they are. (They are gathered beside `out`, so that a refusal leaves it
// untouched; more than 1024 never remain.)
fn list_squares(old: &[u16], new: &[u16], size: Size, out: &mut [u32]) -> Result<usize, Refusal>
    ensures { answer (encoded result) out.new ≡ listing old.now new.now size.width size.rows out.old }
{
    size.checked(old.len(), new.len())?;
    let mut found = Found {
        squares: [0; 1024],
        count: 0,
    };
    let whole = Corner { x: 0, y: 0 };
    quarter(&Pictures { old, new, size }, whole, 256, &mut found);
    let squares = found.as_slice();
    let count = squares.len();
    if out.len() < count {
        return Err(Refusal::NoRoom);
    }
    write(squares, out);
    Ok(count)
}

// Copies listed squares from the new picture into a view of it, and answers how many they are.
fn copy_squares(list: &[u32], new: &[u16], size: Size, view: &mut [u16]) -> Result<usize, Refusal>
    ensures { answer (encoded result) view.new ≡ copying list.now new.now size.width size.rows view.old }
{
    size.checked(view.len(), new.len())?;
    if !are_squares(list, size) {
        return Err(Refusal::NotAllowed);
    }
    copy_listed(list, new, size, view);
    Ok(list.len())
}

// Lists the squares of side 8 in which two pictures differ, each as y * 65536 + x of its lower left corner, and answers how many they are.
#[unsafe(no_mangle)]
pub extern "C" fn dextolumen_squares(
    old: &[u16],
    new: &[u16],
    width: usize,
    rows: usize,
    out: &mut [u32],
) -> u64
    ensures { answer result out.new ≡ listing old.now new.now width rows out.old }
{
    encoded(list_squares(old, new, Size { width, rows }, out))
}

// Copies listed squares from the new picture into a view of it, and answers how many they are. (C has both calls by name, with these arguments in this order.)
#[unsafe(no_mangle)]
pub extern "C" fn dextolumen_copy_squares(
    list: &[u32],
    new: &[u16],
    width: usize,
    rows: usize,
    view: &mut [u16],
) -> u64
    ensures { answer result view.new ≡ copying list.now new.now width rows view.old }
{
    encoded(copy_squares(list, new, Size { width, rows }, view))
}
