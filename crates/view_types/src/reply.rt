//! The answers to commands.

ghost use Rattle.std.specs.Prelude.{◌≡◌};
ghost use Rattle.view_types.specs.Replies.{is_refusal, kind_of};

use crate::extents::Extent;
use crate::list::List;
use crate::namespaces::{Held, Listed};
use crate::refusal::Refusal;
use crate::translation::Run;
use crate::views::RegionView;

/// The answer to a command.
#[derive(Drop)]
pub enum Reply {
    /// The area of the module was initialised, and has this number of slots.
    Initialised {
        dimm: u32,
        slots: u32,
    },
    /// A namespace was made. Offset and length are in bytes of each member's part, the size in bytes of all of them.
    /// `spare` is the least number of spare slots that a member has left.
    Created {
        uuid: [u8; 16],
        region: u16,
        offset: u64,
        length: u64,
        size: u64,
        spare: u32,
    },
    /// The namespace was destroyed.
    Destroyed {
        uuid: [u8; 16],
    },
    /// The namespace has this name now, with zeros behind it.
    Renamed {
        uuid: [u8; 16],
        name: [u8; 64],
    },
    /// So many held labels of the module were given up.
    Released {
        count: u32,
    },
    /// Namespaces, by the index of their region, then by offset and uuid.
    Namespaces(List<Listed>),
    /// Regions by index, with neither namespaces nor free extents.
    Regions(List<RegionView>),
    /// The free extents of a region, and the size in bytes of the greatest namespace that they have room for.
    Free {
        extents: List<Extent>,
        largest: u64,
    },
    /// The held labels of a module, and its spare slots.
    HeldList {
        held: List<Held>,
        spare: u32,
    },
    /// The byte of a module behind a system physical address.
    Module {
        dimm: u32,
        dpa: u64,
    },
    /// The system physical address of a module's byte.
    Spa {
        spa: u64,
    },
    /// The bytes of modules behind a range, by position and then by address.
    Runs(List<Run>),
    Refused(Refusal),
}

/// What a reply tells of what was done.
#[derive(Clone, Copy, Debug, PartialEq, Eq)]
pub enum ReplyKind {
    /// The command changed the state of the label storage areas.
    Change,
    /// The command only tells.
    Told,
    /// The command was refused, and changed nothing.
    Refusal,
}

impl Reply {
    /// Of which kind the reply is.
    pub fn kind(&self) -> ReplyKind
        ensures { result ≡ kind_of self.now }
    {
        match self {
            Reply::Initialised { .. }
            | Reply::Created { .. }
            | Reply::Destroyed { .. }
            | Reply::Renamed { .. }
            | Reply::Released { .. } => ReplyKind::Change,
            Reply::Namespaces(_)
            | Reply::Regions(_)
            | Reply::Free { .. }
            | Reply::HeldList { .. }
            | Reply::Module { .. }
            | Reply::Spa { .. }
            | Reply::Runs(_) => ReplyKind::Told,
            Reply::Refused(_) => ReplyKind::Refusal,
        }
    }

    /// Whether the reply is a refusal.
    pub fn is_refusal(&self) -> bool
        ensures { result ≡ is_refusal self.now }
    {
        self.kind() == ReplyKind::Refusal
    }
}
