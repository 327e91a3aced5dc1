//! The last text of a run is said.

ghost use Rattle.run_edges.specs.Saying.{Says, SaysLine};
ghost use Rattle.run_edges.specs.Statuses.{code_of};

use crate::faults::Fault;
use crate::statuses::Status;
use crate::texts::fault_line;
use rig_trait::{Failed, Rig};

/// Says the line of a fault, and gives its status.
pub fn say_fault<R: Rig>(rig: &mut R, fault: Fault) -> u8
    ensures { SaysLine R.Shown rig.old rig.new fault result }
{
    say(rig, fault_line(fault).as_bytes(), fault.status())
}

/// Says a text, and gives the status, or that of a text that could not be said.
pub fn say<R: Rig>(rig: &mut R, text: &[u8], status: Status) -> u8
    ensures { Says R.Shown rig.old rig.new text.now (code_of status) result }
{
    match rig.say(text) {
        Ok(()) => status.code(),
        Err(Failed) => Status::Say.code(),
    }
}
