// What is allowed of a word's data, and which vertices fit the open figure.
ghost use Rattle.std.specs.Prelude.{◌≡◌};
ghost use Rattle.refusals.specs.Allowed.{init_allowed, parameter_allowed, coordinate_allowed, x_fits, px_fits, coordinate_fits};

use picture::limits::{LARGEST_BORDER, LARGEST_COORDINATE};
use registers::lines::line_length;
use registers::shape::Shape;
use registers::subcommand::Subcommand;
use registers::word::Coordinate;

// The bits that ZCONTROL, HCONTROL and LSTATUS may have.
pub(crate) const ZCONTROL_BITS: u16 = 0x0060;

pub(crate) const HCONTROL_BITS: u16 = 0x0D8E;

pub(crate) const LSTATUS_BITS: u16 = 0x0030;

// The bits that IMG may have: 0 its direction, 2 not used.
pub(crate) const IMG_BITS: u16 = 0x0005;

// The largest page code.
const LARGEST_PAGE: u16 = 7;

// INIT's data: chips and unit 0, a page code up to the largest, a line code that is listed.
#[tactic(auto, unfolding(crate::specs::Allowed::init_allowed))]
pub(crate) fn is_init_allowed(data: u16) -> bool
    ensures { result ≡ init_allowed «data» }
{
    (data / 64 % 4 == 0)
        & (data / 16 % 4 == 0)
        & (data % 16 <= LARGEST_PAGE)
        & (line_length(data) != 0)
}

// A parameter of a subcommand of which k have come before it.
pub(crate) fn is_parameter_allowed(s: Subcommand, k: u16, v: u16) -> bool
    ensures { result ≡ parameter_allowed s k v }
{
    match s {
        Subcommand::Pmode => v <= 1,
        Subcommand::Lmode => v <= 2,
        Subcommand::Zcontrol => v & !ZCONTROL_BITS == 0,
        Subcommand::Hcontrol => v & !HCONTROL_BITS == 0,
        Subcommand::Lstatus => v & !LSTATUS_BITS == 0,
        Subcommand::Window if k < 4 => v <= LARGEST_BORDER,
        Subcommand::Window | Subcommand::Imode => v == 0,
        Subcommand::Load | Subcommand::Save => v <= LARGEST_COORDINATE,
        Subcommand::Nothing
        | Subcommand::Tpattern
        | Subcommand::Section
        | Subcommand::Color
        | Subcommand::Lpattern
        | Subcommand::Mask => true,
    }
}

// A coordinate's number.
pub(crate) fn is_coordinate_allowed(c: Coordinate, n: u16) -> bool
    ensures { result ≡ coordinate_allowed c n }
{
    matches!(c, Coordinate::I | Coordinate::Z) || n <= LARGEST_COORDINATE
}

// Whether X fits the open figure in a line mode.
fn x_fits(shape: Shape, lmode: u16) -> bool
    ensures { result ≡ x_fits shape lmode }
{
    match shape {
        Shape::Closed => false,
        Shape::Strip | Shape::Fan => true,
        Shape::Line => lmode == 2,
    }
}

// Whether PX fits the open figure in a line mode.
fn px_fits(shape: Shape, lmode: u16) -> bool
    ensures { result ≡ px_fits shape lmode }
{
    matches!(shape, Shape::Line) && lmode <= 1
}

// Whether a coordinate fits the open figure in a line mode.
pub(crate) fn coordinate_fits(c: Coordinate, shape: Shape, lmode: u16) -> bool
    ensures { result ≡ coordinate_fits c shape lmode }
{
    match c {
        Coordinate::X => x_fits(shape, lmode),
        Coordinate::Px => px_fits(shape, lmode),
        Coordinate::I
        | Coordinate::Z
        | Coordinate::Y
        | Coordinate::T1x
        | Coordinate::T2x
        | Coordinate::Lx => true,
    }
}
