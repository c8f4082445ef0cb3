// The command machine without its drawing: words, the register record, the record after an accepted word, and the figure that a word
// completes. Which words are refused is asked elsewhere (the crate `refusals`).
#![tactic(auto)]

pub mod lines;
mod next;
pub mod regions;
pub mod shape;
pub mod subcommand;
pub mod word;

use picture::{Frame, Vertex};

// Bits of the words that are kept as sent: ZCONTROL bit 6 depth test, bit 5 sectioning; HCONTROL bit 2 I enable, bit 1 Z enable, bit 3
// pictures go to and from Z; LSTATUS bit 5 INV, bit 4 END.
pub(crate) const DEPTH: u16 = 64;

pub const SECTIONING: u16 = 32;

pub(crate) const I_ENABLE: u16 = 4;

pub(crate) const Z_ENABLE: u16 = 2;

pub(crate) const Z_PICTURE: u16 = 8;

pub(crate) const INV: u16 = 32;

pub(crate) const END: u16 = 16;

// All bits of a word of sixteen.
pub(crate) const ALL_BITS: u16 = 65535;

// The bits of a line's pattern, by which its steps are counted.
pub const PATTERN_LENGTH: u16 = 32;

// What stands in place of an AUX number where nothing is awaited, and where IMG's parameters are, for a region to memory; one more stands for a region from memory.
pub const NOTHING: u16 = 13;

pub(crate) const LOAD: u16 = 14;

// The words of PMODE, LMODE, ZCONTROL, HCONTROL, LSTATUS, TPATTERN, MASK and SECTION, as they were sent. LX rewrites LSTATUS.
#[repr(C)]
#[derive(Clone, Copy, PartialEq, Eq)]
pub struct Modes {
    pub pmode: u16,
    pub lmode: u16,
    pub zcontrol: u16,
    pub hcontrol: u16,
    pub lstatus: u16,
    pub transparency: u16,
    pub planes: u16,
    pub section: u16,
}

// The clipping window. Its borders belong to it.
#[repr(C)]
#[derive(Clone, Copy, PartialEq, Eq)]
pub struct Window {
    pub left: u16,
    pub top: u16,
    pub right: u16,
    pub bottom: u16,
}

// What lines of the modes 0 and 1 are drawn with: two colours, and the pattern's bits 31 to 16 and 15 to 0.
#[repr(C)]
#[derive(Clone, Copy, PartialEq, Eq)]
pub struct Dash {
    pub foreground: u16,
    pub background: u16,
    pub high: u16,
    pub low: u16,
}

// The I, Z and Y registers.
#[repr(C)]
#[derive(Clone, Copy, PartialEq, Eq)]
pub struct Latch {
    pub i: u16,
    pub z: u16,
    pub y: u16,
}

// The open figure: 0 for none, 1 a strip, 2 a fan, 3 a line (the numbers of `Shape`: C has the record). `first` is the vertex that the next one joins; where `pair` is 1, so is `second`.
// Of a line, `steps` is how many it has made since LX, modulo 32, and `dashed` is 1 if its last segment was visible and of mode 0 or 1.
#[repr(C)]
#[derive(Clone, Copy, PartialEq, Eq)]
pub struct Figure {
    pub shape: u16,
    pub pair: u16,
    pub first: Vertex,
    pub second: Vertex,
    pub steps: u16,
    pub dashed: u16,
}

// The AUX number whose parameters are awaited, 13 for none, 14 and 15 for IMG's; how many have come, and those.
#[repr(C)]
#[derive(Clone, Copy, PartialEq, Eq)]
pub struct Parked {
    pub subcommand: u16,
    pub came: u16,
    pub values: [u16; 5],
}

// The region of a picture: 0 for none, 1 to memory, 2 from memory; the column of its first corner, its second corner, and the pixel that the
// next transfer is of.
#[repr(C)]
#[derive(Clone, Copy, PartialEq, Eq)]
pub struct Region {
    pub way: u16,
    pub x0: u16,
    pub x1: u16,
    pub y1: u16,
    pub x: u16,
    pub y: u16,
}

// All registers. Every field is an unsigned number, so that any bits are a record; docs/REGISTERS.md lists the bounds. `started` is 1 once
// an INIT was accepted. C has the same struct (include/dextolumen.h): so here kinds are numbers, flags are 0 or 1, 0 or `NOTHING` stands for none, and
// the parked values have their count beside them.
#[repr(C)]
#[derive(Clone, Copy, PartialEq, Eq)]
pub struct Registers {
    pub started: u16,
    pub frame: Frame,
    pub modes: Modes,
    pub window: Window,
    pub dash: Dash,
    pub latch: Latch,
    pub figure: Figure,
    pub parked: Parked,
    pub region: Region,
}
