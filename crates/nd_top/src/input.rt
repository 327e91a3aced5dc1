//! The form `run`: the lines of the input are done.

ghost use Rattle.std.specs.Prelude.{◌≡◌, Some};
ghost use Rattle.rig_trait.specs.Frames.{GoesOn};
ghost use Rattle.nd_top.specs.Ends.{AsksNothing, RefusesNfit};
ghost use Rattle.nd_top.specs.Lines.{EndsInput};
ghost use Rattle.nd_top.specs.Words.{RunInput};

use crate::runs::run_on;
use command_runs::lines_of;
use rig_trait::{Rig, Source};
use run_edges::{Fault, MOST_READ, SourceName, read_all, read_platform, say_fault};
use std::alloc::Global;

/// Does the lines of the input on the platform of the NFIT.
pub fn run_input<R: Rig, N: Source, I: Source>(
    alloc: Global,
    rig: &mut R,
    nfit: &mut N,
    input: &mut I,
    seed: u128,
) -> u8
    ensures ends { EndsInput R.Shown N.Source I.Source seed rig.old rig.new nfit.old nfit.new
        input.old input.new result }
    ensures nfit_first { RefusesNfit N.Source (Some RunInput) nfit.old → AsksNothing R.Shown rig.old rig.new }
    ensures input_behind { RefusesNfit N.Source (Some RunInput) nfit.old → input.new ≡ input.old }
    ensures goes_on { GoesOn R.Shown rig.old rig.new }
{
    let platform = match read_platform(alloc, nfit) {
        Ok(platform) => platform,
        Err(fault) => return say_fault(rig, fault),
    };
    let bytes = match read_all(alloc, input, SourceName::Input, MOST_READ) {
        Ok(bytes) => bytes,
        Err(fault) => return say_fault(rig, fault),
    };
    match lines_of(alloc, &bytes) {
        Ok(lines) => run_on(alloc, rig, platform, &lines, seed),
        Err(_) => say_fault(rig, Fault::Memory),
    }
}
