// The spots of a segment's steps: one number tells a pixel, its row times a width and its column. They are told from the first spot and from what a pixel
// along either axis adds or takes, and no pixel is computed. Where the width is the line length, a spot is the place in a picture of rows.
ghost use Rattle.std.specs.Prelude.{◌≡◌, ◌*◌, ◌≤◌};
ghost use Rattle.line.specs.Segment.{side_at};
ghost use Rattle.line.specs.Course.{move_of, OnCourse, spot_at};

use crate::slope::Slope;

// What a pixel along an axis adds to the spot, and what it takes from it: one of them is 0. (Two numbers and no enum: a step multiplies by both and asks nothing.)
#[derive(Clone, Copy)]
pub(crate) struct Move {
    pub(crate) up: u32,
    pub(crate) down: u32,
}

// The width of spots, the first of them, and the moves along the axis that leads and along the other.
#[derive(Clone, Copy)]
pub(crate) struct Course {
    pub(crate) width: u32,
    pub(crate) first: u32,
    pub(crate) ahead: Move,
    pub(crate) aside: Move,
}

// The move from one number towards another.
fn move_of(from: u16, to: u16, width: u32) -> Move
    ensures { result ≡ move_of from to width }
{
    if from <= to {
        return Move { up: width, down: 0 };
    }
    Move { up: 0, down: width }
}

// The course of a segment.
pub(crate) fn course_of(width: u32, slope: Slope) -> Course
    requires { width ≤ 65536 }
    ensures { (result.width ≡ width) × OnCourse result.width slope.a slope.b slope result }
{
    let first = (slope.a.y as usize * width as usize + slope.a.x as usize) as u32;
    let x = move_of(slope.a.x, slope.b.x, 1);
    let y = move_of(slope.a.y, slope.b.y, width);
    if slope.level {
        return Course {
            width,
            first,
            ahead: x,
            aside: y,
        };
    }
    Course {
        width,
        first,
        ahead: y,
        aside: x,
    }
}

impl Course {
    // The spot of step k, which moves so far to the side.
    pub(crate) fn spot_at(self, slope: Slope, k: u64, side: u16) -> usize
        requires { OnCourse self.width slope.a slope.b slope self × (k ≤ slope.n) × (side ≡ side_at slope.n slope.m k) }
        ensures { result ≡ spot_at self.width slope.a slope.b k }
    {
        let lead = (k as u16) as usize;
        let side = side as usize;
        let up = lead * self.ahead.up as usize + side * self.aside.up as usize;
        let down = lead * self.ahead.down as usize + side * self.aside.down as usize;
        self.first as usize + up - down
    }
}
