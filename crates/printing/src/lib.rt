// The text of a run over a picture of the drawing program's size, for the programs that print it. specs/Printing.antt is the text.
#![tactic(auto)]

ghost use Rattle.ground.specs.Refusal.{told};
ghost use Rattle.machine.specs.Machine.{memories};
ghost use Rattle.machine.specs.Run.{ran};
ghost use Rattle.report.specs.Calls.{Stands};
ghost use Rattle.report.specs.Text.{report};
ghost use Rattle.printing.specs.Printing.{text_of};

use chip::run::Ran;
use ground::number_of;
use report::write;

// Puts the text of the numbers and memories of a run at the front of a page that holds any, and tells its length. It always fits, 22 bytes for each
// place and 84 for the first line, so that `NoRoom` never comes.
pub fn put_report(
    words: u64,
    refusal: u64,
    passed: u64,
    line: u16,
    im: &[u16; 8192],
    zm: &[u16; 8192],
    out: &mut [u8; 180308],
) -> usize
    ensures { Stands (report words refusal passed line im.now zm.now) out.old out.new result }
{
    write(words, refusal, passed, line, im, zm, out).unwrap()
}

// Puts the text of what a run came to at the front of a page that holds any, and tells its length.
pub fn put_text(a: Ran, im: &[u16; 8192], zm: &[u16; 8192], out: &mut [u8; 180308]) -> usize
    ensures { Stands (text_of (ran (told a.outcome) a.index a.sum a.registers (memories im.now zm.now))) out.old out.new result }
{
    put_report(
        a.index,
        number_of(a.outcome),
        a.sum,
        a.registers.frame.line,
        im,
        zm,
        out,
    )
}
