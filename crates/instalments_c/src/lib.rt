// The calls of the crate instalments for a host in C. (Said again here: a static library exports the marked functions of its own crate alone.)
#![tactic(auto)]

ghost use Rattle.std.specs.Prelude.{◌≡◌};
ghost use Rattle.instalments.specs.Instalments.{taking, fresh, feeding, ending};
ghost use Rattle.machine.specs.Lent.{found, left};
ghost use Rattle.machine.specs.Machine.{memories};

use instalments::Intake;

// Before the first byte.
#[unsafe(no_mangle)]
pub extern "C" fn dextolumen_begin() -> Intake
    ensures { result ≡ fresh }
{
    instalments::dextolumen_begin()
}

// Takes an instalment.
#[unsafe(no_mangle)]
pub extern "C" fn dextolumen_feed(s: Intake, bytes: &[u8], im: &mut [u16], zm: &mut [u16]) -> Intake
    ensures { taking result (left im zm) ≡ feeding (taking s (found im zm)) bytes.now }
{
    instalments::dextolumen_feed(s, bytes, im, zm)
}

// Ends a recording: no more bytes come.
#[unsafe(no_mangle)]
pub extern "C" fn dextolumen_finish(s: Intake, im: &[u16], zm: &[u16]) -> Intake
    ensures { taking result (memories im.now zm.now) ≡ ending (taking s (memories im.now zm.now)) }
{
    instalments::dextolumen_finish(s, im, zm)
}
