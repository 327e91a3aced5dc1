//! The command that initialises the area of a module.

ghost use Rattle.std.specs.Prelude.{◌≡◌};
ghost use Rattle.namespace_commands.specs.Initialising.{IsInit, init_answer, init_refusal};
ghost use Rattle.namespace_commands.specs.Lists.{IsStateOf};

use crate::creation::ChangeFault;
use label_sets::{SetInitFault, Sets};
use region_map::Platform;
use rig_trait::Rig;
use std::alloc::Global;
use view_types::{AreaState, Refusal, Reply, Status};

/// Initialises the label storage area of the module with a device handle: it gets two index blocks, and becomes Ready
/// without labels. The reply tells its number of slots, or why nothing was done: nothing was written then. The area is
/// read again, and is initialised only where it is Uninit. A stop at any moment leaves areas that stand for the table
/// before the command, or for that behind it.
pub fn init_labels<R: Rig>(
    alloc: Global,
    rig: &mut R,
    platform: &Platform,
    sets: &mut Sets,
    dimm: u32,
) -> Result<Reply, ChangeFault>
    requires state { IsStateOf platform.now sets.old }
    ensures { IsInit R.Shown platform.now dimm sets.old rig.old sets.new rig.new result }
{
    if !platform.modules.as_slice().contains(&dimm) {
        return Ok(Reply::Refused(Refusal::UnknownDimm { dimm }));
    }
    init_answer(dimm, sets.init(alloc, rig, platform, dimm))
}

/// What the command is answered.
fn init_answer(dimm: u32, done: Result<u32, SetInitFault>) -> Result<Reply, ChangeFault>
    ensures { result ≡ init_answer dimm done }
{
    match done {
        Ok(slots) => Ok(Reply::Initialised { dimm, slots }),
        Err(SetInitFault::Refused(state)) => Ok(Reply::Refused(init_refusal(dimm, state))),
        Err(SetInitFault::Failed { dimm }) => Err(ChangeFault::Area { dimm }),
        Err(SetInitFault::Memory) => Err(ChangeFault::Memory),
    }
}

/// Why the area of a module in this state is not initialised.
fn init_refusal(dimm: u32, state: AreaState) -> Refusal
    ensures { result ≡ init_refusal dimm state }
{
    match state {
        AreaState::Ready { .. } => Refusal::AlreadyReady { dimm },
        state => Refusal::NotReady {
            status: Status::Area { dimm, state },
        },
    }
}
