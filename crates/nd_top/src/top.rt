//! One run, from the words to what is said and the status.

ghost use Rattle.std.specs.Prelude.{◌≡◌};
ghost use Rattle.rig_trait.specs.Frames.{GoesOn};
ghost use Rattle.nd_top.specs.Ends.{AsksNothing, Ends, NeedsInput, NeedsNfit, RefusesNfit};
ghost use Rattle.nd_top.specs.Words.{asked};

use crate::input::run_input;
use crate::labels::say_labels;
use crate::line::do_words;
use crate::words::{Request, request_of};
use rig_trait::{Rig, Source};
use run_edges::{Fault, say_fault};
use std::alloc::Global;

/// Does what the words ask for.
///
/// The form `run` does the command of each line of the input, and says its reply before the next line is looked at. The
/// whole NFIT is read first, then the whole input, and then the areas of all modules. `do` is a run of one line, the
/// words behind the folder, and does not read the input. `labels` reads the area of one module alone, and says the
/// listing of its labels. A new namespace for which its command gives no uuid gets one that is made from the seed and
/// the number of its line.
///
/// The first fault ends the run, and its line is said last; where a reply could not be said whole nothing more is said.
/// The status is 0 where all was done and no reply was a refusal, and 1 where one was; 2 where the words are no form, 3
/// where the NFIT is none, 4 where the rig failed at an area, 5 where a source failed or has more than 1,048,576 bytes,
/// 6 where memory was refused, and 7 where a text could not be said whole.
pub fn nd_top<R: Rig, N: Source, I: Source>(
    alloc: Global,
    words: &[String],
    rig: &mut R,
    nfit: &mut N,
    input: &mut I,
    seed: u128,
) -> u8
    ensures ends { Ends R.Shown N.Source I.Source seed (asked words.now) rig.old rig.new nfit.old nfit.new
        input.old input.new result }

    // The NFIT is read first, and only for lines; where it is not accepted nothing else is read.
    ensures nfit_first { RefusesNfit N.Source (asked words.now) nfit.old → AsksNothing R.Shown rig.old rig.new }
    ensures input_behind { RefusesNfit N.Source (asked words.now) nfit.old → input.new ≡ input.old }
    ensures nfit_unread { ¬ NeedsNfit (asked words.now) → nfit.new ≡ nfit.old }
    ensures input_unread { ¬ NeedsInput (asked words.now) → input.new ≡ input.old }

    ensures goes_on { GoesOn R.Shown rig.old rig.new }
{
    match request_of(words) {
        None => say_fault(rig, Fault::Words),
        Some(Request::Labels { dimm }) => say_labels(alloc, rig, dimm),
        Some(Request::Line { front, back }) => do_words(alloc, front, back, rig, nfit, seed),
        Some(Request::Input) => run_input(alloc, rig, nfit, input, seed),
    }
}
