// What is said to whoever started the program, on standard error. Whether it is read no contract can say, so that nothing is answered. `say` and `say_number` are lent bytes, which stay, and end no
// line. All else says whole lines, and takes what is said by value: a text, which lends its bytes by `&`, so that they stay by its type; bytes, as `Ascii`; or what `format_args!` puts together.
ghost use Rattle.std.specs.Prelude.{◌≡◌, ◌≤◌, length, Some, encode_utf8_all};

use std::fmt::{Display, Write};
use std::io::{Eprint, Error, Print};
use std::{fmt, io};

// Any bytes, as they are: a text, or a part of one, since no line's end is added.
pub fn say(stderr: &impl Print, text: &[u8])
    ensures { text.now ≡ text.now }
{
    let _ = stderr.write_all(text);
}

// A name and its number.
pub fn say_number(stderr: &impl Print, name: &[u8], n: u64)
    ensures { name.now ≡ name.now }
{
    say(stderr, name);
    let _ = stderr.print(n);
}

// A line.
pub fn say_line(rt: &impl Eprint, line: impl Display + Drop) {
    let _ = rt.eprintln(line);
}

// That a program met a word which is refused: the number that refuses it, and its index. (The number is all that is ever printed of a refusal, so that no `Display` of it would
// be plainer than `u64::from`.)
pub fn say_refused(rt: &impl Eprint, program: impl Display + Drop, number: u64, word: u64) {
    say_line(
        rt,
        format_args!("{program}: refusal {number} at word {word}"),
    );
}

// Prints the number that refuses what a program was given, and says it as well.
pub fn refuse(
    rt: &(impl Print + Eprint),
    program: impl Display + Drop,
    number: u64,
) -> io::Result<()> {
    say_line(rt, format_args!("{program}: refusal {number}"));
    println!(rt; "refusal {number}")
}

// Bytes as text: those of ASCII as they are. A byte above 127 becomes the character of its number, of two bytes in UTF-8: what is displayed is text, and std has no
// way by which a `Display` or an `Eprint` puts a byte that is none.
#[derive(Clone, Copy)]
pub struct Ascii<'a>(pub &'a [u8]);

impl<'a> Display for Ascii<'a> {
    ghost output = { λ bytes. Some (encode_utf8_all bytes.0.now) };

    fn fmt<W: fmt::Write>(&self, f: &mut fmt::Formatter<W>) -> fmt::Result {
        for byte in self.0 {
            f.write_char(char::from(*byte))?;
        }
        Ok(())
    }
}

// The front of a text that is written to it: room for it, and how much of that is filled. (No `String`, since the programs take no memory that may be missing; and a lent
// slice that gets shorter would not tell what stands in front of it.)
#[derive(Drop)]
struct Front {
    text: [u8; 64],
    size: usize,
    ghost fits: { size ≤ 64 },
}

impl fmt::Write for Front {
    fn write_str(&mut self, s: &str) -> fmt::Result {
        for byte in s.as_bytes() {
            if self.size < 64 {
                self.text[self.size] = *byte;
                self.size += 1;
            }
        }
        Ok(())
    }
}

// A text without the number that follows it in parentheses.
fn bare(text: &[u8]) -> &[u8]
    ensures { length result.now ≤ length text.now }
{
    match text.iter().position(|byte| *byte == b'(') {
        Some(n) => &text[..n.saturating_sub(1)],
        None => text,
    }
}

// That something failed, and why: what it is, a colon and the system's text.
pub fn fail(rt: &impl Eprint, what: impl Display + Drop, error: Error) {
    let mut why = Front {
        text: [0; 64],
        size: 0,
    };
    // `Front` takes what it has room for, and never fails.
    let _ = write!(why, "{error}");
    let reason = Ascii(bare(&why.text[..why.size]));
    say_line(rt, format_args!("{what}: {reason}"));
}

// That something failed, and why, if it did.
pub fn tell(rt: &impl Eprint, what: impl Display + Drop, done: io::Result<()>) {
    if let Err(error) = done {
        fail(rt, what, error);
    }
}
