// A record that is ready to draw.
use registers::Registers;

// Reset's record with a line open at (0, 0), visible and in mode 2, and both enables: X draws, and stores I and Z.
pub(crate) fn ready() -> Registers {
    let mut r = Registers::reset();
    r.started = 1;
    r.modes.lmode = 2;
    r.modes.hcontrol = 6;
    r.modes.lstatus = 0;
    r.figure.shape = 3;
    r
}
