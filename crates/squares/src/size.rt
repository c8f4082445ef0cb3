// How large a picture is, and how a square is told.
ghost use Rattle.std.specs.Prelude.{◌≡◌, ◌+◌, ◌-◌, ◌≤◌, ◌<◌, ◌&&◌, ltb, min};
ghost use Rattle.ground.specs.Refusal.{told};
ghost use Rattle.squares.specs.Squares.{number_of, corner_of};
ghost use Rattle.squares.specs.Calls.{checked, is_square};

use ground::Refusal;

// How many columns and rows a picture has.
#[derive(Clone, Copy)]
pub(crate) struct Size {
    pub(crate) width: usize,
    pub(crate) rows: usize,
}

impl Size {
    // Whether two pictures of n and m places have so many columns and rows, and as many are allowed.
    pub(crate) fn checked(self, n: usize, m: usize) -> Result<(), Refusal>
        ensures { told result ≡ checked n m self.width self.rows 0 }
    {
        if n != m {
            return Err(Refusal::Unsound);
        }
        if 0 < self.width && self.width <= 256 && self.rows <= 256 && n == self.width * self.rows {
            return Ok(());
        }
        Err(Refusal::NotAllowed)
    }

    // Whether a square's corner is inside a picture of this size.
    pub(crate) fn has(self, square: Corner) -> bool
        ensures { result ≡ (ltb square.x self.width && ltb square.y self.rows) }
    {
        (square.x < self.width) & (square.y < self.rows)
    }

    // How many columns and rows of a square of side 8, whose corner is inside, are inside.
    pub(crate) fn clip(self, square: Corner) -> Size
        requires { (square.x < self.width) × (square.y < self.rows) }
        ensures columns { (result.width ≡ min 8 (self.width - square.x)) × (square.x + result.width ≤ self.width) }
        ensures rows { (result.rows ≡ min 8 (self.rows - square.y)) × (square.y + result.rows ≤ self.rows) }
    {
        Size {
            width: 8usize.min(self.width - square.x),
            rows: 8usize.min(self.rows - square.y),
        }
    }

    // Whether a square is such as is listed for a picture of this size.
    pub(crate) fn lists(self, square: Corner) -> bool
        ensures { result ≡ is_square self.width self.rows square }
    {
        (square.x % 8 == 0) & (square.y % 8 == 0) & self.has(square)
    }
}

// A square's lower left corner, which tells it.
#[derive(Clone, Copy)]
pub(crate) struct Corner {
    pub(crate) x: usize,
    pub(crate) y: usize,
}

impl Corner {
    // The square as one number.
    pub(crate) fn number(self) -> u32
        requires { (self.x < 65536) × (self.y < 65536) }
        ensures { result ≡ number_of self }
    {
        (self.y * 65536 + self.x) as u32
    }
}

impl From<u32> for Corner {
    ghost from_gives = { λ number corner. corner ≡ corner_of number };

    // The square that a number tells.
    fn from(number: u32) -> Corner {
        Corner {
            x: (number % 65536) as usize,
            y: (number / 65536) as usize,
        }
    }
}
