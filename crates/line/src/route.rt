// The route of a segment: all that stays from step to step, and where a step's pixel lies.
ghost use Rattle.std.specs.Prelude.{◌≡◌, ◌≤◌};
ghost use Rattle.line.specs.declared.route.Way.{Way};
ghost use Rattle.line.specs.declared.route.Way.TheVariants.{Rows, Tiles, Shares, Asked};
ghost use Rattle.line.specs.Course.{OnCourse, spot_at};
ghost use Rattle.line.specs.Field.{in_field};
ghost use Rattle.line.specs.Part.{part_of};
ghost use Rattle.line.specs.Walk.{OnWalk};
ghost use Rattle.line.specs.Route.{way_of, spot_width, column_of, row_of, is_here, placed_at, far_of, OnRoute, onward_of};

use crate::course::{Course, course_of};
use crate::part::{Part, part_of};
use crate::slope::Slope;
use crate::walk::{Step, Walk, walk_of};
use picture::carry::whole;
use picture::pixel::is_in_window;
use picture::place::{lies_plain, lies_tiled, place_tiled};
use picture::{Frame, Pen};

// In which way a loop finds the places of its steps.
#[derive(Clone, Copy)]
pub(crate) enum Way {
    // in rows
    Rows,
    // in tiles
    Tiles,
    // in what a unit has of each row
    Shares,
    // in rows, asking at each step whether the window and the memory have its pixel
    Asked,
}

// A way as a type, so that a loop is compiled once for each.
pub(crate) trait Path {
    ghost WAY: { Way };

    const WAY: Way;
}

// In rows.
pub(crate) struct InRows;

impl Path for InRows {
    ghost WAY = { Rows };

    const WAY: Way = Way::Rows;
}

// In tiles.
pub(crate) struct InTiles;

impl Path for InTiles {
    ghost WAY = { Tiles };

    const WAY: Way = Way::Tiles;
}

// In shares.
pub(crate) struct InShares;

impl Path for InShares {
    ghost WAY = { Shares };

    const WAY: Way = Way::Shares;
}

// In rows, asking.
pub(crate) struct Asking;

impl Path for Asking {
    ghost WAY = { Asked };

    const WAY: Way = Way::Asked;
}

// What stays from step to step. A unit that has drawn a step goes the far walk to the next.
#[derive(Clone, Copy)]
pub(crate) struct Route {
    pub(crate) slope: Slope,
    pub(crate) course: Course,
    pub(crate) rows: usize,
    pub(crate) part: Part,
    pub(crate) near: Walk,
    pub(crate) far: Walk,
}

// The way of a segment whose ends are inside the window and the memory, or not.
pub(crate) fn way_of(frame: Frame, inside: bool) -> Way
    ensures { result ≡ way_of frame inside }
{
    if !inside {
        Way::Asked
    } else if lies_plain(frame) {
        Way::Rows
    } else if lies_tiled(frame) {
        Way::Tiles
    } else {
        Way::Shares
    }
}

// The width of spots.
fn spot_width(way: Way, frame: Frame) -> u32
    ensures { (result ≡ spot_width way frame) × (result ≤ 65536) }
{
    match way {
        Way::Rows | Way::Shares => frame.line as u32,
        Way::Tiles | Way::Asked => 65536,
    }
}

// The column of a spot.
fn column_of(at: usize) -> u16
    ensures { result ≡ column_of at }
{
    (at % 65536) as u16
}

// The row of a spot.
fn row_of(at: usize) -> u16
    ensures { result ≡ row_of at }
{
    (at / 65536 % 65536) as u16
}

// From a column of a unit to its next one: where x leads, as many steps as there are units.
fn far_of(part: Part, slope: Slope, near: Walk) -> Walk
    requires { near.stride ≡ 1 }
    ensures { result ≡ far_of part slope near }
{
    if slope.level {
        let second = near.twice();
        if part.shift == 1 {
            return second;
        }
        return second.twice();
    }
    near
}

// The route of a segment.
pub(crate) fn route_of(frame: Frame, rows: usize, way: Way, deep: bool, slope: Slope) -> Route
    ensures { (result.slope ≡ slope) × OnRoute frame rows way deep result }
{
    let course = course_of(spot_width(way, frame), slope);
    let part = part_of(frame);
    let near = walk_of(slope, deep);
    let far = far_of(part, slope, near);
    Route {
        slope,
        course,
        rows,
        part,
        near,
        far,
    }
}

impl Route {
    // The spot of the step where a walk stands.
    pub(crate) fn spot_of(self, step: Step) -> usize
        requires { OnCourse self.course.width self.slope.a self.slope.b self.slope self.course × OnWalk self.slope.a self.slope.b self.slope step }
        ensures { result ≡ spot_at self.course.width self.slope.a self.slope.b step.k }
    {
        self.course.spot_at(self.slope, step.k, whole(step.side))
    }

    // Whether pixel (x, y) is inside the window and the memory, as `is_within` tells it of a segment's ends. Here the window is asked only where the memory has the pixel:
    // of all comparisons in one, LLVM makes some thirty instructions on vectors at each step.
    fn is_in_field(self, pen: Pen, x: u16, y: u16) -> bool
        ensures { result ≡ in_field pen self.rows x y }
    {
        let memory = (x < pen.frame.line) & ((y as usize) < self.rows);
        memory && is_in_window(pen, x, y)
    }

    // Whether the memory has the pixel of a spot, as far as a way asks.
    pub(crate) fn is_here(self, pen: Pen, way: Way, at: usize) -> bool
        ensures { result ≡ is_here pen self.rows way self.part at }
    {
        match way {
            Way::Rows | Way::Tiles => true,
            Way::Shares => self.part.has_place(at),
            Way::Asked => self.is_in_field(pen, column_of(at), row_of(at)),
        }
    }

    // The place of a spot.
    pub(crate) fn place_at(self, frame: Frame, way: Way, at: usize) -> usize
        requires { self.part ≡ part_of frame }
        ensures { result ≡ placed_at frame way self.part at }
    {
        match way {
            Way::Rows => at,
            Way::Tiles => place_tiled(frame.line, column_of(at), row_of(at)),
            Way::Shares => at >> self.part.shift,
            Way::Asked => (row_of(at) as usize) * (frame.line as usize) + (column_of(at) as usize),
        }
    }

    // From a step that is drawn, or that the memory does not have, to the next that may be.
    pub(crate) fn onward(self, way: Way, at: usize, step: Step) -> Step
        requires { (step.k ≤ 65535) × (self.near.stride ≤ 4) × (self.far.stride ≤ 4) }
        ensures { result ≡ onward_of way self at step }
    {
        if matches!(way, Way::Shares) && self.part.has_place(at) {
            return self.far.next(step);
        }
        self.near.next(step)
    }
}
