// The judgements of a setup and of a CBW, exported to the controller's C program.
// Each is the library's own, under its name, with its answer as a number.
#![tactic(auto)]

ghost use Rattle.std.specs.Prelude.{◌≡◌};
ghost use Rattle.model.specs.Requests.{judged_setup};
ghost use Rattle.model.specs.Wrappers.{judged_cbw};

use model::refusal::number_of;

// Of setup bytes by themselves: 0, or the refusal 7 (not 8 bytes, or unlisted) or 9 (a wLength that is not allowed).
#[unsafe(no_mangle)]
pub extern "C" fn judge_setup(setup: &[u8]) -> u8
    ensures { result ≡ judged_setup setup.now }
{
    number_of(formats::setup::judge_setup(setup))
}

// Of a CBW by its bytes and the highest unit of its interface: 0, or the refusal 16 (not in order, or no such unit).
#[unsafe(no_mangle)]
pub extern "C" fn judge_cbw(cbw: &[u8], highest: u8) -> u8
    ensures { result ≡ judged_cbw cbw.now highest }
{
    number_of(scsi::wrapper::judge_cbw(cbw, highest))
}
