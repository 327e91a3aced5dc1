//! Why a list of lines is not done to its end.

ghost use Rattle.std.specs.Prelude.{◌≡◌};
ghost use Rattle.command_runs.specs.declared.faults.LineFault.TheVariants.{Memory, Say};

use rig_trait::Failed;
use std::alloc::AllocError;

/// The fault that ends a list of lines.
#[derive(Clone, Copy, Debug, PartialEq, Eq)]
pub enum LineFault {
    /// The rig failed, at the area of the module with this device handle. The table is that before the command, or that
    /// behind it, and its reply was not said.
    Area { dimm: u32 },
    /// Memory was refused. The command changed nothing, and its reply was not said.
    Memory,
    /// A reply could not be said whole. Its command is done.
    Say,
}

impl From<AllocError> for LineFault {
    ghost from_gives = { λ _ fault. fault ≡ Memory };

    fn from(_: AllocError) -> LineFault {
        LineFault::Memory
    }
}

/// The output failed.
impl From<Failed> for LineFault {
    ghost from_gives = { λ _ fault. fault ≡ Say };

    fn from(_: Failed) -> LineFault {
        LineFault::Say
    }
}
