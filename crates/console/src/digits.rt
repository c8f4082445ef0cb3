// Numbers as arguments tell them, digit by digit.
ghost use Rattle.std.specs.Prelude.{◌≡◌, ◌+◌, ◌*◌, ◌%◌, ◌≤◌, min};
ghost use Rattle.console.specs.Digits.{digits_only, value_of};

// Whether all bytes are digits.
pub fn digits_only(arg: &[u8]) -> bool
    ensures { result ≡ digits_only arg.now }
{
    arg.iter().all(|byte| byte.is_ascii_digit())
}

// A number with one digit more, or `most` if it is greater: no number of digits can wrap.
fn with_digit(n: usize, byte: u8, most: u32) -> usize
    requires { n ≤ most }
    ensures { result ≡ min (n * 10 + byte % 16) most }
{
    (n * 10 + (byte % 16) as usize).min(most as usize)
}

// The number that digits tell, or `most` if it is greater.
pub fn value(arg: &[u8], most: u32) -> usize
    ensures { result ≡ min (value_of 0 arg.now) most }
{
    let mut n = 0;
    for byte in arg {
        n = with_digit(n, *byte, most);
    }
    n
}
