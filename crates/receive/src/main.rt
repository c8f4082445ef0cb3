// Receives a recording of any length, as a slow line delivers it: the bytes are taken in instalments as they come, and the picture is printed
// as text once the end is reached. Of a stream that 11 and 12 don't touch that is what the drawing program prints. Where a read or a write
// fails, it says so on standard error.
#![tactic(auto)]

mod text;

use console::args::count;
use console::say::{fail, say_line, tell};
use console::{piece, take};
use instalments::{Intake, dextolumen_begin, dextolumen_feed};
use text::put_received;

// Prints bytes, or says that it cannot.
fn print(rt: &(impl Print + Eprint), text: &[u8]) {
    tell(rt, "receive: standard output", rt.write_all(text));
}

// The end is reached: prints what the recording came to.
fn end(rt: &(impl Print + Eprint), s: Intake, im: &[u16; 8192], zm: &[u16; 8192]) {
    let mut out = [0u8; 180308];
    let n = put_received(s, im, zm, &mut out);
    print(rt, &out[..n]);
}

// Reads piece by piece; one that is not full is the last. A loop that is proved to end cannot read for ever: 2^48 full pieces, 2^64 bytes,
// are too long. (The memories are lent one by one, as `dextolumen_feed` takes them.)
fn receive(rt: &(impl Input + Print + Eprint), im: &mut [u16; 8192], zm: &mut [u16; 8192]) {
    let mut part = piece();
    let mut s = dextolumen_begin();
    for _ in 0..281474976710656u64 {
        let n = match take(rt, &mut part) {
            Ok(n) => n,
            Err(error) => {
                fail(rt, "receive: standard input", error);
                return;
            }
        };
        s = dextolumen_feed(s, &part[..n], im, zm);
        if n < 65536 {
            end(rt, s, im, zm);
            return;
        }
    }
    print(rt, b"too long\n");
}

fn main(rt: HostRuntime) {
    if 1 < count(&rt) {
        say_line(&rt, "usage: receive < RECORDING");
        return;
    }
    let mut im = [0u16; 8192];
    let mut zm = [65535u16; 8192];
    receive(&rt, &mut im, &mut zm);
}
