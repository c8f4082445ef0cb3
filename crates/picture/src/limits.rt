// How far the card reaches: the largest numbers that it takes and uses (specs/Limits.antt).

// The largest coordinate, of a vertex and of a corner of a picture's region.
pub const LARGEST_COORDINATE: u16 = 16383;

// The largest border of a window.
pub const LARGEST_BORDER: u16 = 16384;

// The rows in use, at most.
pub const MOST_ROWS: usize = 16384;
