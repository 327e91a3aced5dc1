//! Lines are done on a platform.

ghost use Rattle.std.specs.Prelude.{◌≡◌, map};
ghost use Rattle.region_map.specs.Platforms.{IsSound};
ghost use Rattle.rig_trait.specs.Frames.{GoesOn};
ghost use Rattle.nd_top.specs.Runs.{EndsOn, SaysEnd};

use command_runs::{LineFault, run_lines};
use region_map::Platform;
use rig_trait::Rig;
use run_edges::{Fault, Status, say_fault, start_session};
use std::alloc::Global;

/// Reads the areas of a platform, and does the lines one after the other. The first fault ends the run, and its line is
/// said last; where a reply could not be said whole nothing more is.
pub fn run_on<R: Rig>(
    alloc: Global,
    rig: &mut R,
    platform: Platform,
    lines: &[&[u8]],
    seed: u128,
) -> u8
    requires { IsSound platform }
    ensures ends { EndsOn R.Shown seed platform (map (λ line. line.now) lines.now) rig.old rig.new result }
    ensures goes_on { GoesOn R.Shown rig.old rig.new }
{
    let mut session = match start_session(alloc, rig, platform) {
        Ok(session) => session,
        Err(fault) => return say_fault(rig, fault),
    };
    let outcome = run_lines(alloc, rig, &mut session, lines, seed);
    say_end(rig, outcome)
}

/// Says the line of the fault that ended lines, and gives the status. Behind a reply that could not be said whole
/// nothing is said.
fn say_end<R: Rig>(rig: &mut R, outcome: Result<bool, LineFault>) -> u8
    ensures ends { SaysEnd R.Shown rig.old rig.new outcome result }
    ensures goes_on { GoesOn R.Shown rig.old rig.new }
{
    match outcome {
        Ok(false) => Status::Ok.code(),
        Ok(true) => Status::Refused.code(),
        Err(LineFault::Area { dimm }) => say_fault(rig, Fault::Area { dimm }),
        Err(LineFault::Memory) => say_fault(rig, Fault::Memory),
        Err(LineFault::Say) => Status::Say.code(),
    }
}
