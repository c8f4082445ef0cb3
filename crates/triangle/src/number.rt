// The numbers of covered pixels. Along a row they are carried as 2^48 times themselves and a part, so that a pixel costs a sum and a shift
// and no division: a factor in place of the quotient where the triangle is small, a quotient rounded up at the row's first pixel where it
// is not.
ghost use Rattle.picture.specs.Draw.{carried_one};
ghost use Rattle.std.specs.Prelude.{◌≡◌, ◌+◌, ◌*◌, ◌%◌, ◌^◌, ◌<◌, ◌≤◌};
ghost use Rattle.triangle.specs.Edge.{amount};
ghost use Rattle.triangle.specs.Number.{mass_of, mixed};
ghost use Rattle.triangle.specs.Loops.{Ready, columns_of, levels_of, intensities_of, depths_of, Slants, Leans, LeansBoth, Sums, summed_up};
ghost use Rattle.triangle.specs.Loops.{Begins, Begun, Paces, Drifts, Carries};

use crate::cover::over;
use crate::{Corners, Edges, Facet, HALF, MOST_FACTORED, Numbers, Rising, Slopes, Sum};
use picture::CARRIED_ONE;

// Four methods, and not one that takes which field: each promises a definition of its own (`columns_of`, `levels_of`, `intensities_of`, `depths_of`), and one over a
// closure would name the field at each of its eight calls and promise it by the closure's `F.post`, no plainer.
impl Corners {
    // The corners' columns.
    fn columns(self) -> Numbers
        ensures { result ≡ columns_of self }
    {
        Numbers {
            a: self.a.x,
            b: self.b.x,
            c: self.c.x,
        }
    }

    // Their rows.
    fn levels(self) -> Numbers
        ensures { result ≡ levels_of self }
    {
        Numbers {
            a: self.a.y,
            b: self.b.y,
            c: self.c.y,
        }
    }

    // Their intensities.
    pub(crate) fn intensities(self) -> Numbers
        ensures { result ≡ intensities_of self }
    {
        Numbers {
            a: self.a.i,
            b: self.b.i,
            c: self.c.i,
        }
    }

    // Their depths.
    pub(crate) fn depths(self) -> Numbers
        ensures { result ≡ depths_of self }
    {
        Numbers {
            a: self.a.z,
            b: self.b.z,
            c: self.c.z,
        }
    }
}

// r over m, times 2^48, rounded down, by two divisions of 64 bits: one of 128 bits would be a loop.
fn part(r: u64, m: u64) -> u64
    requires { (r < m) × (m ≤ 4294967296) }
    ensures { (result * m ≤ r * carried_one) × (r * carried_one < result * m + m) × (result < carried_one) }
{
    let a = r * 4294967296;
    let b = (a % m) * 65536;
    (a / m) * 65536 + b / m
}

// n over m, times 2^48, rounded down.
fn fixed(n: u64, m: u64) -> u64
    requires { (0 < m) × (m ≤ 4294967296) × (2 * n ≤ 131071 * m) }
    ensures { (result * m ≤ n * carried_one) × (n * carried_one < result * m + m) × (result ≤ 18446603336221196288) }
{
    (n / m) * CARRIED_ONE + part(n % m, m)
}

impl Numbers {
    // What a step along an axis adds to 2 N, modulo 2^64; `across` are the corners' coordinates along the other. By differences it takes two products, and not
    // six.
    fn slant(self, across: Numbers) -> u64
        ensures { Slants across.a across.b across.c self.a self.b self.c result }
    {
        let rise = over(self.b, self.a).wrapping_mul(over(across.c, across.a));
        let fall = over(self.c, self.a).wrapping_mul(over(across.b, across.a));
        rise.wrapping_sub(fall).wrapping_mul(2)
    }
}

impl Sum {
    // The same sum a row on.
    pub(crate) fn raised(self) -> Sum
        ensures { result ≡ summed_up self }
    {
        Sum {
            at: self.at.wrapping_add(self.up),
            ..self
        }
    }

    // The sum at column x of its row, modulo 2^64.
    pub(crate) fn at_column(self, x: u64) -> u64
        ensures { result ≡ (self.at + x * self.right) % 2 ^ 64 }
    {
        self.at.wrapping_add(x.wrapping_mul(self.right))
    }
}

impl Slopes {
    // A sum at a covered pixel of corners with a doubled area, to be carried along its row.
    pub(crate) fn begin(self, area: u64, sum: u64) -> u64
        requires { Begins area self sum }
        ensures { Begun area self sum result }
    {
        match self.factor {
            Some(factor) => sum * factor,
            None => fixed(sum, 2 * area) + 1,
        }
    }
}

impl Facet {
    // The sum of the corner numbers at a covered pixel with its edges.
    fn mass(self, edges: Edges, numbers: Numbers) -> u64
        requires { Ready self.corners self.area edges }
        ensures { (result ≡ mass_of (amount edges.bc) (amount edges.ca) (amount edges.ab) self.area numbers.a numbers.b numbers.c) × (result ≤ 131071 * self.area) }
    {
        let u = edges.bc.amount();
        let v = edges.ca.amount();
        let w = edges.ab.amount();
        2 * (numbers.a as u64 * u + numbers.b as u64 * v + numbers.c as u64 * w) + self.area
    }

    // The number at a pixel with its edges, from the corner numbers.
    pub(crate) fn number(self, edges: Edges, numbers: Numbers) -> u16
        requires { Ready self.corners self.area edges }
        ensures { result ≡ mixed (amount edges.bc) (amount edges.ca) (amount edges.ab) self.area numbers.a numbers.b numbers.c }
    {
        (self.mass(edges, numbers) / (2 * self.area)) as u16
    }

    // The sum of the corner numbers in row y, from corner a: there N is its number times the doubled area.
    pub(crate) fn sum(self, numbers: Numbers, y: u16) -> Sum
        ensures { Sums self.corners numbers.a numbers.b numbers.c y result }
    {
        let a = self.corners.a;
        let right = numbers.slant(self.corners.levels());
        let up = numbers.slant(self.corners.columns()).wrapping_neg();
        let first = (2 * numbers.a as u64 + 1).wrapping_mul(self.area);
        let across = (a.x as u64).wrapping_mul(right);
        let climbed = over(y, a.y).wrapping_mul(up);
        Sum {
            at: first.wrapping_sub(across).wrapping_add(climbed),
            right,
            up,
        }
    }

    // What one pixel to the right adds to a scaled sum of the corner numbers, modulo 2^64. (`drift` has its shape, and another quotient with another bound: one
    // function of both would take the quotient as a closure, no plainer.)
    fn pace(self, factor: u64, numbers: Numbers, right: u64) -> u64
        requires { (2 * self.area ≤ 65536) × (factor * (2 * self.area) ≤ carried_one + 2 * self.area) × (Leans self.corners numbers.a numbers.b numbers.c right) }
        ensures { Paces self.corners factor numbers.a numbers.b numbers.c result }
    {
        let most = 131070 * self.area;
        if right < HALF {
            return right.min(most) * factor;
        }
        (right.wrapping_neg().min(most) * factor).wrapping_neg()
    }

    // What one pixel to the right adds to a long sum of the corner numbers, modulo 2^64.
    fn drift(self, numbers: Numbers, right: u64) -> u64
        requires { (self.area ≤ 2147483648) × (Leans self.corners numbers.a numbers.b numbers.c right) }
        ensures { Drifts self.corners numbers.a numbers.b numbers.c result }
    {
        let most = 131070 * self.area;
        if right < HALF {
            return fixed(right.min(most), 2 * self.area) + 1;
        }
        fixed(right.wrapping_neg().min(most), 2 * self.area).wrapping_neg()
    }

    // How the numbers of a triangle are carried along its rows, by what a pixel to the right adds to the sums of I and Z.
    pub(crate) fn slopes(self, rising: Rising) -> Slopes
        requires { (self.area ≤ 2147483648) × (LeansBoth self.corners rising.i.right rising.z.right) }
        ensures { Carries self.corners result }
    {
        let i = self.corners.intensities();
        let z = self.corners.depths();
        if MOST_FACTORED < self.area {
            return Slopes {
                factor: None,
                i: self.drift(i, rising.i.right),
                z: self.drift(z, rising.z.right),
            };
        }
        let factor = CARRIED_ONE / (2 * self.area) + 1;
        Slopes {
            factor: Some(factor),
            i: self.pace(factor, i, rising.i.right),
            z: self.pace(factor, z, rising.z.right),
        }
    }
}
