//! Why a session cannot be had, and why a command has no reply.

ghost use Rattle.std.specs.Prelude.{◌≡◌};
ghost use Rattle.namespace_core.specs.Faults.{fault_by, is_area, open_fault_by};

use label_sets::SetFault;
use namespace_commands::ChangeFault;

/// Why there is no session.
#[derive(Clone, Copy, Debug, PartialEq, Eq)]
pub enum OpenFault {
    /// The rig failed, at the area of the module with this device handle.
    Failed { dimm: u32 },
    /// Memory was refused.
    Memory,
}

/// Why a command has no reply.
#[derive(Clone, Copy, Debug, PartialEq, Eq)]
pub enum RunFault {
    /// The rig failed, at the area of the module with this device handle. The table is that before the command, or that
    /// behind it; the session is spent.
    Area { dimm: u32 },
    /// Memory was refused. Nothing was written.
    Memory,
    /// The session is spent. Nothing was done.
    Spent,
}

impl OpenFault {
    /// Why the state could not be read.
    pub(crate) fn of(fault: SetFault) -> OpenFault
        ensures { result ≡ open_fault_by fault }
    {
        match fault {
            SetFault::Failed { dimm } => OpenFault::Failed { dimm },
            SetFault::Memory => OpenFault::Memory,
        }
    }
}

impl RunFault {
    /// Why a command on a session that is not spent has no reply.
    pub(crate) fn of(fault: ChangeFault) -> RunFault
        ensures { result ≡ fault_by fault }
    {
        match fault {
            ChangeFault::Area { dimm } => RunFault::Area { dimm },
            ChangeFault::Memory => RunFault::Memory,
        }
    }

    /// The rig failed at an area.
    pub(crate) fn is_area(self) -> bool
        ensures { result ≡ is_area self }
    {
        matches!(self, RunFault::Area { .. })
    }
}
