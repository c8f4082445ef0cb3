// One row: words, the number that the last of them gets, and the number that it should get.
ghost use Rattle.std.specs.Prelude.{◌≤◌};

use crate::answer::last;
use ground::{Refusal, number_of};
use std::io;

// Prints a row's line. (Each call has its row's name and where to print: no struct of the two, which would be made anew for each row.)
fn print_row(rt: &impl Print, name: &str, got: u64, should: u64) -> io::Result<()> {
    if got == should {
        return println!(rt; "{name}: {got}, as it should be");
    }
    println!(rt; "{name}: {got}, and should be {should}")
}

// What the last of the words gets over memories of I and Z places.
fn over<const I: usize, const Z: usize>(words: &[u32]) -> Result<u64, Refusal>
    requires { (I ≤ 2048) × (Z ≤ 2048) }
{
    let mut im = [0u16; I];
    let mut zm = [0u16; Z];
    last(words, &mut im, &mut zm)
}

// A row over memories of one length.
pub(crate) fn row(rt: &impl Print, name: &str, words: &[u32], should: u64) -> io::Result<()> {
    print_row(rt, name, number_of(over::<256, 256>(words)), should)
}

// A row over memories of two lengths. (No length of Z at each row, as in `vectors`: nearly all rows are over memories of one length, and say nothing of it.)
pub(crate) fn unlike(rt: &impl Print, name: &str, words: &[u32], should: u64) -> io::Result<()> {
    print_row(rt, name, number_of(over::<256, 255>(words)), should)
}

// A row that tells how many pixels pass at the last word, over eight rows of 256 places.
pub(crate) fn passed(rt: &impl Print, name: &str, words: &[u32], should: u64) -> io::Result<()> {
    print_row(rt, name, over::<2048, 2048>(words).unwrap_or(0), should)
}
