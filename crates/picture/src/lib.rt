// The two lent memories, and what an offered pixel does to them. specs/ says where pixels lie (Place), what is offered (Offer), what
// passes and is stored (Picture), and what pictures store (Store).
#![tactic(auto)]

pub mod carry;
pub mod draw;
pub mod limits;
pub mod nearer;
pub mod pixel;
pub mod place;
pub mod steady;
pub mod transfer;

// Where pixels lie: the line length, and the number of the layout (specs/Place.antt), 0 for rows one after the other and 1 for tiles of four by
// four.
#[repr(C)]
#[derive(Clone, Copy, PartialEq, Eq)]
pub struct Frame {
    pub line: u16,
    pub layout: u16,
}

// What the modes say of drawing. The window's borders belong to it. (The last three are settings: beside none of them stands a value that it decides about.)
#[derive(Clone, Copy)]
pub struct Pen {
    pub frame: Frame,
    pub left: u16,
    pub right: u16,
    pub bottom: u16,
    pub top: u16,
    pub transparency: u16,
    pub planes: u16,
    pub depth: bool,
    pub ienable: bool,
    pub zenable: bool,
}

// The figures that pixels belong to: Gouraud and constant triangles, lines of the modes 0, 1 and 2.
#[derive(Clone, Copy, PartialEq, Eq)]
pub enum Kind {
    Gouraud,
    Constant,
    Line0,
    Line1,
    Line2,
}

// A point of a figure, with its two numbers.
#[repr(C)]
#[derive(Clone, Copy, PartialEq, Eq)]
pub struct Vertex {
    pub x: u16,
    pub y: u16,
    pub i: u16,
    pub z: u16,
}

// What 1 is as a carried number.
pub const CARRIED_ONE: u64 = 1 << 48;

// The two memories, lent together: I has the pixels' intensities, Z their depths.
#[derive(Drop)]
pub struct Memories<'a> {
    pub i: &'a mut [u16],
    pub z: &'a mut [u16],
}

// A number carried along a row, as 2^48 times itself and a part: what it is at the row's first pixel, and what each pixel adds, modulo
// 2^64.
#[derive(Clone, Copy)]
pub struct Carried {
    pub first: u64,
    pub add: u64,
}

// The pixels of row y from column lo up to and without hi, their numbers carried.
#[derive(Clone, Copy)]
pub struct Stretch {
    pub lo: u16,
    pub hi: u16,
    pub y: u16,
    pub i: Carried,
    pub z: Carried,
}

// What a unit of a board has of a stretch: its first column, how many columns, and their numbers.
#[derive(Clone, Copy)]
struct Share {
    x: u16,
    count: u16,
    i: Carried,
    z: Carried,
}

// Pixels that lie side by side: the place of the first, how many, and their numbers. (That they lie in both memories, `Fits`, stands in the contracts: a run does not
// hold the memories.)
#[derive(Clone, Copy)]
struct Run {
    base: usize,
    count: u16,
    i: Carried,
    z: Carried,
}
