// What the program prints for a recording that has come to its end.
ghost use Rattle.report.specs.Calls.{Stands};
ghost use Rattle.instalments.specs.Instalments.{taking};
ghost use Rattle.receive.specs.Receive.{received};
ghost use Rattle.machine.specs.Machine.{memories};

use instalments::{Intake, dextolumen_finish};
use printing::put_report;

// The text of a recording that has come so far, once it is told that no more comes. (`printing`'s `put_text` takes what a run answers; the record of an
// intake has the number of a refusal, as C takes it.)
pub(crate) fn put_received(
    s: Intake,
    im: &[u16; 8192],
    zm: &[u16; 8192],
    out: &mut [u8; 180308],
) -> usize
    ensures { Stands (received (taking s (memories im.now zm.now))) out.old out.new result }
{
    let end = dextolumen_finish(s, im, zm);
    let line = end.registers.frame.line;
    put_report(end.index, end.refusal, end.sum, line, im, zm, out)
}
