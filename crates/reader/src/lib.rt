// The entry for the host program in C that reads a pixel, on the record where it stands. Its result is that of the chip's own `read`, by the
// same definitions. include/dextolumen.h has the C side.
#![tactic(auto)]

ghost use Rattle.std.specs.Prelude.{◌≡◌};
ghost use Rattle.chip.specs.Read.{read_as, reading};
ghost use Rattle.machine.specs.Machine.{memories};

use chip::transfer::read;
use registers::Registers;

// The answer to a read: the number that refuses it, 0 for accepted, and the pixel. The next registers are in the record.
// C has the struct, so that its fields are numbers.
#[repr(C)]
#[derive(Clone, Copy)]
pub struct Seen {
    pub refusal: u64,
    pub pixel: u16,
}

// Reads the region's pixel and updates the record where it stands, or refuses and leaves the record as it was.
#[unsafe(no_mangle)]
pub extern "C" fn dextolumen_read(registers: &mut Registers, im: &[u16], zm: &[u16]) -> Seen
    ensures { read_as result.refusal result.pixel registers.new ≡ reading registers.old (memories im.now zm.now) }
{
    match read(*registers, im, zm) {
        Ok(reading) => {
            *registers = reading.registers;
            Seen {
                refusal: 0,
                pixel: reading.pixel,
            }
        }
        Err(refusal) => Seen {
            refusal: refusal.into(),
            pixel: 0,
        },
    }
}
