// What the program prints for the bytes that it read.
ghost use Rattle.std.specs.Prelude.{◌≤◌, length};
ghost use Rattle.report.specs.Calls.{Stands};
ghost use Rattle.printing.specs.Printing.{stream_text};
ghost use Rattle.draw.specs.Draw.{printed, too_long};

use chip::run::run;
use printing::put_text;

// The text of a stream, drawn on a fresh picture.
fn put_drawn(bytes: &[u8], out: &mut [u8; 180308]) -> usize
    ensures { Stands (stream_text bytes.now) out.old out.new result }
{
    let mut im = [0u16; 8192];
    let mut zm = [65535u16; 8192];
    let ran = run(bytes, &mut im, &mut zm);
    put_text(ran, &im, &zm, out)
}

// What is printed for a stream that is too long.
fn put_too_long(out: &mut [u8]) -> usize
    requires { 9 ≤ length out.old }
    ensures { Stands too_long out.old out.new result }
{
    out[..9].copy_from_slice(b"too long\n");
    9
}

// What is printed: the text of a stream, or that it is too long.
pub(crate) fn put_printed(bytes: &[u8], out: &mut [u8; 180308]) -> usize
    ensures { Stands (printed bytes.now) out.old out.new result }
{
    if 8192 < bytes.len() {
        return put_too_long(out);
    }
    put_drawn(bytes, out)
}
