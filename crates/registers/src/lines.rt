// The line lengths that INIT may choose.
ghost use Rattle.std.specs.Prelude.{◌≡◌};
ghost use Rattle.registers.specs.Lines.{code_in, line_of};

// The shortest and the longest that are listed, and what all are multiples of.
pub const SHORTEST_LINE: u16 = 256;

pub const LONGEST_LINE: u16 = 8768;

pub const LINE_UNIT: u16 = 64;

// From a line length code to the line length; 0 for a code that is not listed.
const LENGTHS: [u16; 64] = [
    256, 320, 384, 448, 512, 576, 640, 704, 1024, 1088, 1152, 1216, 2048, 2112, 2176, 2240, 0, 0,
    768, 832, 0, 0, 1280, 1344, 0, 0, 2304, 2368, 4096, 4160, 4352, 4416, 0, 0, 1536, 1600, 0, 0,
    2560, 2624, 0, 0, 4608, 4672, 8192, 8256, 8704, 8768, 0, 0, 0, 0, 0, 0, 0, 0, 0, 0, 0, 0, 0, 0,
    0, 0,
];

// The line length that INIT's data name; 0 for a code that is not listed. It is no Option, since INIT sets what the table has, also where the
// code is not listed (`Registers::init` refuses nothing).
pub fn line_length(data: u16) -> u16
    ensures { result ≡ line_of (code_in «data») }
{
    LENGTHS[(data / 256 % 64) as usize]
}
