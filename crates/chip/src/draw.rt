// The figure that a word completed, drawn.
ghost use Rattle.std.specs.Prelude.{◌≡◌, ◌+◌, ◌*◌};
ghost use Rattle.picture.specs.Picture.{drawn};
ghost use Rattle.registers.specs.Next.{pen_of};
ghost use Rattle.chip.specs.Chip.{style_of, whole_offers, is_cut, figure_offers};
ghost use Rattle.line.specs.Segment.{segment_offers};
ghost use Rattle.picture.specs.Lent.{Draws};

use line::{Mode, Style, segment};
use picture::{Memories, Pen, Vertex};
use registers::shape::Completed;
use registers::{Registers, SECTIONING};
use triangle::draw::triangle;

// The line pattern of two words, bits 31 to 16 first.
fn pattern_of(high: u16, low: u16) -> u32
    ensures { result ≡ high * 65536 + low }
{
    u32::from(high) * 65536 + u32::from(low)
}

// How lines are drawn.
fn style_of(r: Registers) -> Style
    ensures { result ≡ style_of r }
{
    Style {
        mode: Mode::from(r.modes.lmode),
        pattern: pattern_of(r.dash.high, r.dash.low),
        foreground: r.dash.foreground,
        background: r.dash.background,
        steps: r.figure.steps,
        joined: r.figure.dashed == 1,
    }
}

// Draws a segment. It is not compiled into what calls it: in one function with the loops of triangles, its loops and those run short of registers.
#[inline(never)]
fn draw_segment(pen: Pen, style: Style, a: Vertex, b: Vertex, m: &mut Memories) -> u64
    ensures { Draws pen (λ rows. segment_offers pen rows style a b) m 0 result }
{
    segment(pen, style, a, b, m)
}

// Draws what a word completed, cut or not. Answers how many pixels passed.
fn draw_whole(r: Registers, figure: Completed, m: &mut Memories) -> u64
    ensures { Draws (pen_of r) (λ rows. whole_offers rows r figure) m 0 result }
{
    match figure {
        Completed::Nothing => 0,
        Completed::Triangle(a, b, c) => triangle(r.pen(), r.modes.pmode == 1, a, b, c, m),
        Completed::Segment(a, b) => draw_segment(r.pen(), style_of(r), a, b, m),
    }
}

// Whether a completed figure is cut: with sectioning on, a constant triangle that is deeper than the section depth.
#[tactic(auto, unfolding(crate::specs::Chip::is_cut))]
fn is_cut(r: Registers, figure: Completed) -> bool
    ensures { result ≡ is_cut r figure }
{
    match figure {
        Completed::Triangle(_, _, c) => (r.modes.pmode == 1)
            & (r.modes.zcontrol & SECTIONING != 0)
            & (r.modes.section < c.z),
        Completed::Nothing | Completed::Segment(_, _) => false,
    }
}

// Draws what a word completed, unless it is cut. Answers how many pixels passed. Over memories without places, as `mending` lends them, no figure is even set up.
pub fn draw(r: Registers, figure: Completed, m: &mut Memories) -> u64
    ensures { Draws (pen_of r) (λ rows. figure_offers rows r figure) m 0 result }
{
    if m.i.len() == 0 {
        return 0;
    }
    if is_cut(r, figure) {
        return 0;
    }
    draw_whole(r, figure, m)
}
