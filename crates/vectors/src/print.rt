// What is printed of a call and of a text, on standard output.
use ground::{Refusal, number_of};
use std::io;

// Whether all items of what was lent are as they were.
pub(crate) fn is_all<T: Copy + PartialEq>(items: &[T], item: T) -> bool {
    items.iter().all(|other| *other == item)
}

// Prints the line of a call that lends memories or an output: the number that refuses it, what it counted, and whether all that was lent is
// as it was.
pub(crate) fn print_call(
    rt: &impl Print,
    name: &str,
    answer: Result<u64, Refusal>,
    kept: bool,
) -> io::Result<()> {
    print_counted(rt, name, number_of(answer), answer.unwrap_or(0), kept)
}

// The same of a call that counts, refused or not.
pub(crate) fn print_counted(
    rt: &impl Print,
    name: &str,
    number: u64,
    count: u64,
    kept: bool,
) -> io::Result<()> {
    let lent = if kept { "all as it was" } else { "changed" };
    println!(rt; "{name}: {number}, counts {count}, {lent}")
}
