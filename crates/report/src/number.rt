// Numbers in digits, and the byte after each.
ghost use Rattle.std.specs.Prelude.{◌≡◌, ◌+◌, ◌<◌, ◌≤◌, length};
ghost use Rattle.report.specs.Text.{glyph, last_digits, is_base, digits_in, radix, decimal, field, pair};
ghost use Rattle.report.specs.Calls.{Adds, Lays, Room, Sized};

use crate::page::{Page, has_room};

// The bases that `lay_digits` takes. (No number: of a base of 0 there are no digits, and of one above 16 some have no character. `put_digits` takes any number, and tests it.)
#[derive(Clone, Copy, Debug, PartialEq, Eq)]
pub enum Base {
    Ten,
    Sixteen,
}

// Whether a base has digits, and a character for each.
fn is_base(base: u64) -> bool
    ensures { result ≡ is_base base }
{
    0 < base && base <= 16
}

// The character of a digit.
#[tactic(auto, unfolding(crate::specs::Text::glyph))]
fn character(digit: u64) -> u8
    requires { digit < 16 }
    ensures { result ≡ glyph digit }
{
    if digit < 10 {
        return b'0' + digit as u8;
    }
    b'A' - 10 + digit as u8
}

// How many digits a number has. No range counts them: the loop ends with what is left of the number.
pub(crate) fn digits(n: u64) -> usize
    ensures { Sized (decimal n) 20 result }
{
    let mut count = 1;
    let mut rest = n;
    while 10 <= rest {
        rest /= 10;
        count += 1;
    }
    count
}

impl Page<'_> {
    // Puts the last `count` digits of a number. They come from the last to the first, so that one division finds each.
    pub(crate) fn put_last_digits(&mut self, n: u64, base: u64, count: usize)
        requires base_nonzero { 0 < base }
        requires base_bound { base ≤ 16 }
        requires count_in_bounds { Room count self.old }
        ensures { Adds (last_digits base count n) self.old self.new }
    {
        let mut rest = n;
        for k in (0..count).rev() {
            self.out[self.at + k] = character(rest % base);
            rest /= base;
        }
        self.at += count;
    }

    // Puts the last `count` digits of a number in any base that has digits, each with a character; in another, or where they have no room, they are left out.
    // (`puts` follows from `lays`: it is what a caller that knows of base and room wants.)
    pub fn put_digits(&mut self, n: u64, base: u64, count: usize)
        ensures lays { Lays (digits_in base count n) self.old self.new }
        ensures puts { 0 < base → base ≤ 16 → Room count self.old → Adds (last_digits base count n) self.old self.new }
    {
        if is_base(base) && has_room(self.out.len(), count, self.at) {
            self.put_last_digits(n, base, count);
        }
    }

    // Lays the last `count` digits of a number; where they have no room, they are left out.
    pub fn lay_digits(&mut self, n: u64, base: Base, count: usize)
        ensures { Lays (last_digits (radix base) count n) self.old self.new }
    {
        if has_room(self.out.len(), count, self.at) {
            match base {
                Base::Ten => self.put_last_digits(n, 10, count),
                Base::Sixteen => self.put_last_digits(n, 16, count),
            }
        }
    }

    // Puts a number and the byte after it.
    pub(crate) fn put_field(&mut self, n: u64, after: u8)
        requires { Room (length (field n after)) self.old }
        ensures { Adds (field n after) self.old self.new }
    {
        self.put_last_digits(n, 10, digits(n));
        self.put_byte(after);
    }

    // Puts two numbers, a space between them, and the byte after them.
    pub(crate) fn put_pair(&mut self, m: u64, n: u64, after: u8)
        requires { Room (length (pair m n after)) self.old }
        ensures { Adds (pair m n after) self.old self.new }
    {
        self.put_field(m, b' ');
        self.put_field(n, after);
    }
}

#[cfg(test)]
mod tests {
    use super::*;

    // 181 in seven digits, worked out by hand: in bases of all sorts, in three numbers that are no base, and where six bytes are left.
    #[test]
    fn digits_in_any_base(rt: HostRuntime) {
        for (base, at, text, next) in [
            (2, 1, *b"-0110101--", 8),
            (8, 1, *b"-0000265--", 8),
            (10, 1, *b"-0000181--", 8),
            (12, 3, *b"---0000131", 10),
            (15, 1, *b"-00000C1--", 8),
            (16, 0, *b"00000B5---", 7),
            (1, 1, *b"-0000000--", 8),
            (0, 1, *b"----------", 1),
            (17, 1, *b"----------", 1),
            (18446744073709551615, 1, *b"----------", 1),
            (8, 4, *b"----------", 4),
        ] {
            let mut out = *b"----------";
            let mut page = Page { out: &mut out, at };
            page.put_digits(181, base, 7);
            assert_eq!(rt; page.at, next, "base {base} at {at}");
            assert_eq!(rt; out, text, "base {base} at {at}");
        }
    }
}
