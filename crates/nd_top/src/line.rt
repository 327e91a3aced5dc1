//! The form `do`: one line is done.

ghost use Rattle.std.specs.Prelude.{◌≡◌, ◌++◌, IfOk, Some};
ghost use Rattle.std.specs.String.{string_bytes};
ghost use Rattle.rig_trait.specs.Frames.{GoesOn};
ghost use Rattle.nd_top.specs.Ends.{AsksNothing, RefusesNfit};
ghost use Rattle.nd_top.specs.Lines.{EndsLine};
ghost use Rattle.nd_top.specs.Words.{DoLine, line_of};

use crate::runs::run_on;
use rig_trait::{Rig, Source};
use run_edges::{Fault, read_platform, say_fault};
use std::alloc::{AllocError, Global};

/// Does the line that words spell on the platform of the NFIT.
pub fn do_words<R: Rig, N: Source>(
    alloc: Global,
    front: &[String],
    back: &[String],
    rig: &mut R,
    nfit: &mut N,
    seed: u128,
) -> u8
    ensures ends { EndsLine R.Shown N.Source seed (line_of (front.now ++ back.now)) rig.old rig.new
        nfit.old nfit.new result }
    ensures nfit_first { RefusesNfit N.Source (Some (DoLine (line_of (front.now ++ back.now)))) nfit.old
        → AsksNothing R.Shown rig.old rig.new }
    ensures goes_on { GoesOn R.Shown rig.old rig.new }
{
    match line(alloc, front, back) {
        Ok(line) => do_line(alloc, &line, rig, nfit, seed),
        Err(_) => say_fault(rig, Fault::Memory),
    }
}

/// The line of the form `do`: the words behind the folder, with a space between each two, wherever a `--` parts them.
fn line(alloc: Global, front: &[String], back: &[String]) -> Result<String, AllocError>
    ensures { IfOk result (λ line. string_bytes line ≡ line_of (front.now ++ back.now)) }
{
    let words: Vec<&str> = front
        .iter()
        .chain(back)
        .skip(2)
        .map(String::as_str)
        .collect(alloc)?;
    words.join(alloc, " ")
}

/// Does one line.
fn do_line<R: Rig, N: Source>(
    alloc: Global,
    line: &str,
    rig: &mut R,
    nfit: &mut N,
    seed: u128,
) -> u8
    ensures ends { EndsLine R.Shown N.Source seed line.now rig.old rig.new nfit.old nfit.new result }
    ensures nfit_first { RefusesNfit N.Source (Some (DoLine line.now)) nfit.old → AsksNothing R.Shown rig.old rig.new }
    ensures goes_on { GoesOn R.Shown rig.old rig.new }
{
    match read_platform(alloc, nfit) {
        Ok(platform) => run_on(alloc, rig, platform, &[line.as_bytes()], seed),
        Err(fault) => say_fault(rig, fault),
    }
}
