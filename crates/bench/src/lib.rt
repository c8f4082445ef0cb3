// Entries for the benchmark in C (bench/): one figure, or one stream, a call.
#![tactic(auto)]

ghost use Rattle.std.specs.Prelude.{◌≡◌, length};
ghost use Rattle.stream.specs.Calls.{size_of, packing, unpacking};
ghost use Rattle.bench.specs.Bench.{pen_of, style_of, vertex_of, DrawsTriangle, DrawsSegment, Wrote};

use ground::Refusal;
use line::{Mode, Style};
use picture::limits::LARGEST_BORDER;
use picture::{Frame, Memories, Pen, Vertex};

// The pen of the benchmark: depth test on, both enables, all planes, the widest window.
fn pen_of(line: u16, layout: u16) -> Pen
    ensures { result ≡ pen_of line layout }
{
    Pen {
        frame: Frame { line, layout },
        left: 0,
        right: LARGEST_BORDER,
        bottom: 0,
        top: LARGEST_BORDER,
        transparency: 65535,
        planes: 65535,
        depth: true,
        ienable: true,
        zenable: true,
    }
}

// A vertex at a pixel, with its two numbers.
fn vertex_of(x: u16, y: u16, i: u16, z: u16) -> Vertex
    ensures { result ≡ vertex_of x y i z }
{
    Vertex { x, y, i, z }
}

// Draws a triangle.
#[unsafe(no_mangle)]
pub extern "C" fn dextolumen_bench_triangle(
    line: u16,
    layout: u16,
    constant: bool,
    ax: u16,
    ay: u16,
    ai: u16,
    az: u16,
    bx: u16,
    by: u16,
    bi: u16,
    bz: u16,
    cx: u16,
    cy: u16,
    ci: u16,
    cz: u16,
    im: &mut [u16],
    zm: &mut [u16],
) -> u64
    ensures { DrawsTriangle line layout constant (vertex_of ax ay ai az) (vertex_of bx by bi bz) (vertex_of cx cy ci cz) im zm result }
{
    let a = vertex_of(ax, ay, ai, az);
    let b = vertex_of(bx, by, bi, bz);
    let c = vertex_of(cx, cy, ci, cz);
    let mut m = Memories { i: im, z: zm };
    triangle::draw::triangle(pen_of(line, layout), constant, a, b, c, &mut m)
}

// Draws a segment.
#[unsafe(no_mangle)]
pub extern "C" fn dextolumen_bench_segment(
    line: u16,
    layout: u16,
    mode: u8,
    pattern: u32,
    foreground: u16,
    background: u16,
    ax: u16,
    ay: u16,
    ai: u16,
    az: u16,
    bx: u16,
    by: u16,
    bi: u16,
    bz: u16,
    im: &mut [u16],
    zm: &mut [u16],
) -> u64
    ensures { DrawsSegment line layout (style_of mode pattern foreground background) (vertex_of ax ay ai az) (vertex_of bx by bi bz) im zm result }
{
    let a = vertex_of(ax, ay, ai, az);
    let b = vertex_of(bx, by, bi, bz);
    let style = Style {
        mode: Mode::from(u16::from(mode)),
        pattern,
        foreground,
        background,
        steps: 0,
        joined: false,
    };
    let mut m = Memories { i: im, z: zm };
    line::segment(pen_of(line, layout), style, a, b, &mut m)
}

// The length that a call on packed streams tells.
fn size_of(answer: Result<usize, Refusal>) -> u64
    ensures { result ≡ size_of answer }
{
    answer.unwrap_or(0) as u64
}

// Packs words.
#[unsafe(no_mangle)]
pub extern "C" fn dextolumen_bench_pack(words: &[u32], out: &mut [u8]) -> u64
    ensures { Wrote (packing words.now out.old) result out.new }
{
    size_of(stream::write::pack(words, out))
}

// Unpacks a stream. (C has no generic function: the benchmark calls both by name.)
#[unsafe(no_mangle)]
pub extern "C" fn dextolumen_bench_unpack(bytes: &[u8], out: &mut [u32]) -> u64
    ensures { Wrote (unpacking bytes.now out.old) result out.new }
{
    size_of(stream::read::unpack(bytes, out))
}
