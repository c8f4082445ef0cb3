// The record after a word, one method for each family of commands, and the figure that a word completes. Whether a word is refused is
// asked elsewhere (the crate `refusals`).
ghost use Rattle.std.specs.Prelude.{◌≡◌};
ghost use Rattle.registers.specs.Record.{awaiting, with_parked, with_region, laid, settings, reset_as, reset_of, init_of};
ghost use Rattle.registers.specs.Figure.{vertex_of, figure_after, vertex_completes};
ghost use Rattle.registers.specs.Next.{effect_of, joined_of, parm_of, coordinate_of, coordinate_completes, pen_of, img_number, is_deep_picture};
ghost use Rattle.registers.specs.Region.{next_pixel};

use crate::lines::{SHORTEST_LINE, line_length};
use crate::regions::Way;
use crate::shape::{Completed, Shape};
use crate::subcommand::Subcommand;
use crate::word::Coordinate;
use crate::{
    ALL_BITS, DEPTH, Dash, END, Figure, I_ENABLE, INV, LOAD, Latch, Modes, NOTHING, Parked, Region,
    Registers, Window, Z_ENABLE, Z_PICTURE,
};
use picture::limits::LARGEST_BORDER;
use picture::place::TILED;
use picture::{Frame, Pen, Vertex};

impl Parked {
    // The parameters of an AUX number are awaited.
    fn awaited(number: u16) -> Self
        ensures { result ≡ awaiting number }
    {
        Parked {
            subcommand: number,
            came: 0,
            values: [0; 5],
        }
    }

    // The parked parameters with the one that comes now; its place is one of five.
    fn joined(mut self, value: u16) -> Self
        ensures { result ≡ joined_of self value }
    {
        let at = self.came as usize;
        if at < self.values.len() {
            self.values[at] = value;
        }
        self
    }
}

impl Registers {
    // What INIT sets.
    #[tactic(auto, unfolding(crate::specs::Record::settings))]
    fn set(started: u16, frame: Frame) -> Self
        ensures { result ≡ settings started frame }
    {
        Registers {
            started,
            frame,
            modes: Modes {
                pmode: 0,
                lmode: 1,
                zcontrol: 0,
                hcontrol: 0,
                lstatus: INV,
                transparency: ALL_BITS,
                planes: ALL_BITS,
                section: ALL_BITS,
            },
            window: Window {
                left: 0,
                top: LARGEST_BORDER,
                right: LARGEST_BORDER,
                bottom: 0,
            },
            dash: Dash {
                foreground: 1,
                background: 0,
                high: ALL_BITS,
                low: ALL_BITS,
            },
            latch: Latch { i: 0, z: 0, y: 0 },
            figure: Figure::none(),
            parked: Parked::awaited(NOTHING),
            region: Region::none(),
        }
    }

    // The record after reset, in a layout.
    fn reset_in(layout: u16) -> Self
        ensures { result ≡ reset_as layout }
    {
        let line = SHORTEST_LINE;
        Registers::set(0, Frame { line, layout })
    }

    // The record after reset, with rows one after the other.
    pub fn reset() -> Self
        ensures { result ≡ reset_of }
    {
        Registers::reset_in(0)
    }

    // The record after reset, with tiles of four by four.
    pub fn reset_tiled() -> Self
        ensures { result ≡ reset_as 1 }
    {
        Registers::reset_in(TILED)
    }

    // The record in another layout.
    pub fn in_layout(mut self, layout: u16) -> Self
        ensures { result ≡ laid layout self }
    {
        self.frame.layout = layout;
        self
    }

    // INIT. The layout stays.
    pub fn init(self, data: u16) -> Self
        ensures { result ≡ init_of self «data» }
    {
        let line = line_length(data);
        Registers::set(1, Frame { line, ..self.frame })
    }

    // AUX: the parameters of a subcommand are awaited.
    pub fn aux(mut self, number: u16) -> Self
        ensures { result ≡ with_parked self (awaiting number) }
    {
        self.parked = Parked::awaited(number);
        self
    }

    // IMG: the parameters of a region to memory or from memory are awaited.
    pub fn img(self, data: u16) -> Self
        ensures { result ≡ with_parked self (awaiting (img_number «data»)) }
    {
        self.aux(LOAD + data % 2)
    }

    // PTRN and the read call: the region after a transfer.
    pub fn transferred(mut self) -> Self
        ensures { result ≡ with_region self (next_pixel self.region) }
    {
        self.region = self.region.onward();
        self
    }

    // Pictures go to and from Z.
    pub fn is_deep_picture(self) -> bool
        ensures { result ≡ is_deep_picture self }
    {
        self.modes.hcontrol & Z_PICTURE != 0
    }

    // What the parameters of a subcommand do.
    #[tactic(auto, unfolding(crate::specs::Next::effect_of))]
    fn effect(mut self, s: Subcommand, p: [u16; 5]) -> Self
        ensures { result ≡ effect_of self s p }
    {
        match s {
            Subcommand::Nothing | Subcommand::Imode => {}
            Subcommand::Pmode => self.modes.pmode = p[0],
            Subcommand::Lmode => self.modes.lmode = p[0],
            Subcommand::Zcontrol => self.modes.zcontrol = p[0],
            Subcommand::Hcontrol => self.modes.hcontrol = p[0],
            Subcommand::Tpattern => self.modes.transparency = p[0],
            Subcommand::Section => self.modes.section = p[0],
            Subcommand::Mask => self.modes.planes = p[0],
            Subcommand::Lstatus => self.modes.lstatus = p[0],
            Subcommand::Color => {
                self.dash.foreground = p[0];
                self.dash.background = p[1];
            }
            Subcommand::Lpattern => {
                self.dash.high = p[0];
                self.dash.low = p[1];
            }
            Subcommand::Window => {
                self.window = Window {
                    left: p[0],
                    top: p[1],
                    right: p[2],
                    bottom: p[3],
                };
            }
            Subcommand::Load => self.region = Region::open(Way::ToMemory, p[0], p[1], p[2], p[3]),
            Subcommand::Save => self.region = Region::open(Way::FromMemory, p[0], p[1], p[2], p[3]),
        }
        self
    }

    // PARM: the parameter is parked, or with the last one all take effect.
    #[tactic(auto, unfolding(crate::specs::Next::parm_of))]
    pub fn parm(mut self, value: u16) -> Self
        ensures { result ≡ parm_of self value }
    {
        let p = self.parked.joined(value);
        let s = Subcommand::from(p.subcommand);
        if (p.came as usize) + 1 < (s.wanted() as usize) {
            self.parked = Parked {
                came: p.came + 1,
                ..p
            };
            return self;
        }
        let mut next = self.effect(s, p.values);
        next.parked = Parked::awaited(NOTHING);
        next
    }

    // The vertex that an x makes with the I, Z and Y registers.
    fn vertex(self, x: u16) -> Vertex
        ensures { result ≡ vertex_of self x }
    {
        Vertex {
            x,
            y: self.latch.y,
            i: self.latch.i,
            z: self.latch.z,
        }
    }

    // X and PX: the figure after their vertex.
    fn figure_after(self, x: u16) -> Figure
        ensures { result ≡ figure_after self x }
    {
        let end = self.modes.lstatus & END != 0;
        let hidden = self.modes.lstatus & INV != 0;
        let dashed = !hidden & (self.modes.lmode <= 1);
        self.figure.grown(end, dashed, self.vertex(x))
    }

    // X and PX: what their vertex completes.
    fn completing(self, x: u16) -> Completed
        ensures { result ≡ vertex_completes self x }
    {
        let inv = self.modes.lstatus & INV != 0;
        self.figure.completed(inv, self.vertex(x))
    }

    // The record after a coordinate. T1X, T2X and LX open a figure, and LX sets INV 0 and END 0.
    #[tactic(auto, unfolding(crate::specs::Next::coordinate_of))]
    pub fn coordinate(mut self, c: Coordinate, n: u16) -> Self
        ensures { result ≡ coordinate_of self c n }
    {
        match c {
            Coordinate::I => self.latch.i = n,
            Coordinate::Z => self.latch.z = n,
            Coordinate::Y => self.latch.y = n,
            Coordinate::X | Coordinate::Px => self.figure = self.figure_after(n),
            Coordinate::T1x => self.figure = Figure::open(Shape::Strip, self.vertex(n)),
            Coordinate::T2x => self.figure = Figure::open(Shape::Fan, self.vertex(n)),
            Coordinate::Lx => {
                self.modes.lstatus = 0;
                self.figure = Figure::open(Shape::Line, self.vertex(n));
            }
        }
        self
    }

    // The figure that a coordinate completes.
    #[tactic(auto, unfolding(crate::specs::Next::coordinate_completes))]
    pub fn completed_by(self, c: Coordinate, n: u16) -> Completed
        ensures { result ≡ coordinate_completes self c n }
    {
        match c {
            Coordinate::X | Coordinate::Px => self.completing(n),
            Coordinate::I
            | Coordinate::Z
            | Coordinate::Y
            | Coordinate::T1x
            | Coordinate::T2x
            | Coordinate::Lx => Completed::Nothing,
        }
    }

    // How figures are drawn.
    pub fn pen(self) -> Pen
        ensures { result ≡ pen_of self }
    {
        Pen {
            frame: self.frame,
            left: self.window.left,
            right: self.window.right,
            bottom: self.window.bottom,
            top: self.window.top,
            transparency: self.modes.transparency,
            planes: self.modes.planes,
            depth: self.modes.zcontrol & DEPTH != 0,
            ienable: self.modes.hcontrol & I_ENABLE != 0,
            zenable: self.modes.hcontrol & Z_ENABLE != 0,
        }
    }
}
