//! Why a run ends before all of it is done.

ghost use Rattle.std.specs.Prelude.{◌≡◌};
ghost use Rattle.run_edges.specs.declared.faults.Fault.TheVariants.{Memory};
ghost use Rattle.run_edges.specs.Faults.{nfit_fault, open_fault};
ghost use Rattle.run_edges.specs.Statuses.{code_of, fault_status};

use crate::statuses::Status;
use namespace_core::OpenFault;
use nfit_tables::{NfitFault, ReadNfit};
use std::alloc::AllocError;

/// What bytes are read from.
#[derive(Clone, Copy, Debug, PartialEq, Eq)]
pub enum SourceName {
    /// The NFIT.
    Nfit,
    /// The input.
    Input,
}

/// The first fault of a run, which ends it, and whose line is said.
#[derive(Clone, Copy, Debug, PartialEq, Eq)]
pub enum Fault {
    /// The words are no form.
    Words,
    /// The bytes of the source are no NFIT.
    Nfit(NfitFault),
    /// The rig failed at the area of this module.
    Area { dimm: u32 },
    /// The source failed.
    Source(SourceName),
    /// The source has more bytes than are read of it.
    Limit(SourceName),
    /// Memory was refused.
    Memory,
}

impl Fault {
    /// The status of a run that it ends, where its line can be said.
    pub fn status(self) -> Status
        ensures { code_of result ≡ fault_status self }
    {
        match self {
            Fault::Words => Status::Words,
            Fault::Nfit(_) => Status::Nfit,
            Fault::Area { .. } => Status::Area,
            Fault::Source(_) | Fault::Limit(_) => Status::Source,
            Fault::Memory => Status::Memory,
        }
    }
}

impl From<AllocError> for Fault {
    ghost from_gives = { λ _ fault. fault ≡ Memory };

    fn from(_: AllocError) -> Fault {
        Fault::Memory
    }
}

impl From<ReadNfit> for Fault {
    ghost from_gives = { λ why fault. fault ≡ nfit_fault why };

    fn from(why: ReadNfit) -> Fault {
        match why {
            ReadNfit::Fault(fault) => Fault::Nfit(fault),
            ReadNfit::Memory => Fault::Memory,
        }
    }
}

impl From<OpenFault> for Fault {
    ghost from_gives = { λ why fault. fault ≡ open_fault why };

    fn from(why: OpenFault) -> Fault {
        match why {
            OpenFault::Failed { dimm } => Fault::Area { dimm },
            OpenFault::Memory => Fault::Memory,
        }
    }
}
