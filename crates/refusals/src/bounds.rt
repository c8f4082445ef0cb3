// The bounds on the fields of the record. Most are joined by `&` and not by `&&`, so that no bound has a branch of its own.
ghost use Rattle.std.specs.Prelude.{◌≡◌};
ghost use Rattle.registers.specs.Next.{value};
ghost use Rattle.refusals.specs.Allowed.{parameter_allowed};
ghost use Rattle.refusals.specs.Bounds.{frame_fits, modes_fit, window_fits, vertex_fits, figure_fits, each_came, parked_fits, region_fits, in_bounds};

use crate::allow::{HCONTROL_BITS, LSTATUS_BITS, ZCONTROL_BITS, is_parameter_allowed};
use picture::limits::{LARGEST_BORDER, LARGEST_COORDINATE};
use picture::{Frame, Vertex};
use registers::lines::{LINE_UNIT, LONGEST_LINE, SHORTEST_LINE};
use registers::regions::LAST_WAY;
use registers::shape::LAST_SHAPE;
use registers::subcommand::Subcommand;
use registers::{Figure, Modes, NOTHING, PATTERN_LENGTH, Parked, Region, Registers, Window};

// The largest layout: that of the last unit of a board of four.
const LARGEST_LAYOUT: u16 = 7;

// The line length may be one that is listed, and the layout is rows, tiles, or what a unit of a board has.
#[tactic(auto, unfolding(crate::specs::Bounds::frame_fits))]
fn frame_fits(f: Frame) -> bool
    ensures { result ≡ frame_fits f }
{
    (SHORTEST_LINE..=LONGEST_LINE).contains(&f.line)
        & (f.line % LINE_UNIT == 0)
        & (f.layout <= LARGEST_LAYOUT)
}

// The words of the modes are such as AUX allows; three of them may be any numbers.
#[tactic(auto, unfolding(crate::specs::Bounds::modes_fit))]
fn modes_fit(m: Modes) -> bool
    ensures { result ≡ modes_fit m }
{
    (m.pmode <= 1)
        & (m.lmode <= 2)
        & (m.zcontrol & !ZCONTROL_BITS == 0)
        & (m.hcontrol & !HCONTROL_BITS == 0)
        & (m.lstatus & !LSTATUS_BITS == 0)
}

// Each number of the window is a border.
#[tactic(auto, unfolding(crate::specs::Bounds::window_fits))]
fn window_fits(w: Window) -> bool
    ensures { result ≡ window_fits w }
{
    (w.left <= LARGEST_BORDER)
        & (w.top <= LARGEST_BORDER)
        & (w.right <= LARGEST_BORDER)
        & (w.bottom <= LARGEST_BORDER)
}

// A vertex has coordinates.
#[tactic(auto, unfolding(crate::specs::Bounds::vertex_fits))]
fn vertex_fits(v: Vertex) -> bool
    ensures { result ≡ vertex_fits v }
{
    (v.x <= LARGEST_COORDINATE) & (v.y <= LARGEST_COORDINATE)
}

// The shape and the flags are such as there are, the steps fewer than the pattern has bits, and both vertices have coordinates.
#[tactic(auto, unfolding(crate::specs::Bounds::figure_fits))]
fn figure_fits(f: Figure) -> bool
    ensures { result ≡ figure_fits f }
{
    (f.shape <= LAST_SHAPE)
        & (f.pair <= 1)
        & vertex_fits(f.first)
        & vertex_fits(f.second)
        & (f.steps < PATTERN_LENGTH)
        & (f.dashed <= 1)
}

// Parameter k of those parked; 0 past the fifth. (Not by `get`: an `Option` of a reference is laid out otherwise where addresses have another size, and
// web/build compiles this code for such a processor.)
fn value_at(values: [u16; 5], k: u16) -> u16
    ensures { result ≡ value values k }
{
    if k < 5 { values[k as usize] } else { 0 }
}

// Each value that has come is allowed for its place.
fn are_allowed(s: Subcommand, values: [u16; 5], came: u16) -> bool
    ensures { result ≡ each_came (parameter_allowed s) values came }
{
    (0..came).all(|k| is_parameter_allowed(s, k, value_at(values, k)))
}

// Values are looked at only where there are no more of them than may have come.
#[tactic(auto, unfolding(crate::specs::Bounds::parked_fits))]
fn parked_fits(p: Parked) -> bool
    ensures { result ≡ parked_fits p }
{
    let s = Subcommand::from(p.subcommand);
    (p.subcommand == NOTHING || 0 < s.wanted())
        && p.came <= s.wanted().saturating_sub(1)
        && are_allowed(s, p.values, p.came)
}

// The way is one of three, and the other numbers are coordinates.
#[tactic(auto, unfolding(crate::specs::Bounds::region_fits))]
fn region_fits(g: Region) -> bool
    ensures { result ≡ region_fits g }
{
    (g.way <= LAST_WAY)
        & (g.x0 <= LARGEST_COORDINATE)
        & (g.x1 <= LARGEST_COORDINATE)
        & (g.y1 <= LARGEST_COORDINATE)
        & (g.x <= LARGEST_COORDINATE)
        & (g.y <= LARGEST_COORDINATE)
}

// The record breaks no bound.
#[tactic(auto, unfolding(crate::specs::Bounds::in_bounds))]
pub fn is_sound(r: Registers) -> bool
    ensures { result ≡ in_bounds r }
{
    (r.started <= 1)
        & frame_fits(r.frame)
        & modes_fit(r.modes)
        & window_fits(r.window)
        & (r.latch.y <= LARGEST_COORDINATE)
        & figure_fits(r.figure)
        & parked_fits(r.parked)
        & region_fits(r.region)
}
