// The calls of the crate squares for a host in C. (Said again here: a static library exports the marked functions of its own crate alone.)
#![tactic(auto)]

ghost use Rattle.stream.specs.Calls.{answer};
ghost use Rattle.std.specs.Prelude.{◌≡◌};
ghost use Rattle.squares.specs.Calls.{listing, copying};

// Lists the squares of side 8 in which two pictures differ, each as y * 65536 + x of its lower left corner, and answers how many they are.
#[unsafe(no_mangle)]
pub extern "C" fn dextolumen_squares(
    old: &[u16],
    new: &[u16],
    width: usize,
    rows: usize,
    out: &mut [u32],
) -> u64
    ensures { answer result out.new ≡ listing old.now new.now width rows out.old }
{
    squares::dextolumen_squares(old, new, width, rows, out)
}

// Copies listed squares from the new picture into a view of it, and answers how many they are.
#[unsafe(no_mangle)]
pub extern "C" fn dextolumen_copy_squares(
    list: &[u32],
    new: &[u16],
    width: usize,
    rows: usize,
    view: &mut [u16],
) -> u64
    ensures { answer result view.new ≡ copying list.now new.now width rows view.old }
{
    squares::dextolumen_copy_squares(list, new, width, rows, view)
}
