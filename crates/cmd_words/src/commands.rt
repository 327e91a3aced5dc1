//! The commands, with their keys, and the values that they take.

ghost use Rattle.std.specs.Prelude.{◌≡◌};
ghost use Rattle.cmd_words.specs.Commands.{command_of, keys_of, required_of, verb_of};
ghost use Rattle.cmd_words.specs.Pieces.{pieces};

use crate::name_keys::NameKey;
use crate::values::{
    address, dimm, mode_or_raw, name, name_or_empty, namespace, optional_region, optional_uuid,
    region, sector_size_or_512, size, uuid,
};
use view_types::{Key, WordFault};

/// A command.
#[derive(Clone, Copy, Debug, PartialEq, Eq)]
pub enum Command {
    /// The label storage area of the module with this device handle is initialised.
    InitLabels {
        dimm: u32,
    },
    /// A namespace is made in the region with an index. Where no uuid is given it gets one of its own.
    Create {
        region: u16,
        /// In bytes of all members.
        size: u64,
        /// With zeros behind it.
        name: [u8; 64],
        /// The GUID of the abstraction, in the form of EFI: how the bytes of the namespace are used.
        abstraction: [u8; 16],
        /// The size of a sector in bytes.
        sector: u64,
        uuid: Option<[u8; 16]>,
    },
    /// The namespace that fits a key, in the region with an index, is taken away.
    Destroy {
        region: u16,
        key: NameKey,
    },
    /// The namespace that fits a key, in the region with an index, gets a name, which may be empty.
    Rename {
        region: u16,
        key: NameKey,
        /// With zeros behind it.
        name: [u8; 64],
    },
    /// The held labels with a uuid in the module with this device handle are given up.
    ReleaseHeld {
        dimm: u32,
        uuid: [u8; 16],
    },
    /// The namespaces of a region, or of all regions that are Ready.
    ListSpaces {
        region: Option<u16>,
    },
    /// All regions.
    ListRegions,
    /// The free extents of a region.
    ListFree {
        region: u16,
    },
    /// The held labels of the module with this device handle.
    ListHeld {
        dimm: u32,
    },
    /// The module and the device physical address of a system physical address in a region.
    ToModule {
        region: u16,
        spa: u64,
    },
    /// The system physical address of a device physical address of a module in a region.
    ToSpa {
        region: u16,
        dimm: u32,
        dpa: u64,
    },
    /// The module addresses of a range of system physical addresses in a region. The length is in bytes.
    ToRuns {
        region: u16,
        spa: u64,
        length: u64,
    },
}

/// The first piece of a command: which it is.
#[derive(Clone, Copy, Debug, PartialEq, Eq)]
pub(crate) enum Verb {
    InitLabels,
    Create,
    Destroy,
    Rename,
    ReleaseHeld,
    ListSpaces,
    ListRegions,
    ListFree,
    ListHeld,
    ToModule,
    ToSpa,
    ToRuns,
}

impl Verb {
    /// The verb that a piece is.
    pub(crate) fn of(piece: &str) -> Option<Verb>
        ensures { result ≡ verb_of piece.now }
    {
        match piece {
            "init-labels" => Some(Verb::InitLabels),
            "create-namespace" => Some(Verb::Create),
            "destroy-namespace" => Some(Verb::Destroy),
            "rename-namespace" => Some(Verb::Rename),
            "release-held" => Some(Verb::ReleaseHeld),
            "list" => Some(Verb::ListSpaces),
            "list-regions" => Some(Verb::ListRegions),
            "list-free" => Some(Verb::ListFree),
            "list-held" => Some(Verb::ListHeld),
            "to-module" => Some(Verb::ToModule),
            "to-spa" => Some(Verb::ToSpa),
            "to-runs" => Some(Verb::ToRuns),
            _ => None,
        }
    }

    /// The keys of the command, in the order in which they are tested.
    pub(crate) fn keys(self) -> &'static [Key]
        ensures { result.now ≡ keys_of self }
    {
        match self {
            Verb::InitLabels | Verb::ListHeld => &[Key::Dimm],
            Verb::Create => &[
                Key::Region,
                Key::Size,
                Key::Name,
                Key::Mode,
                Key::SectorSize,
                Key::Uuid,
            ],
            Verb::Destroy => &[Key::Region, Key::Namespace],
            Verb::Rename => &[Key::Region, Key::Namespace, Key::Name],
            Verb::ReleaseHeld => &[Key::Dimm, Key::Uuid],
            Verb::ListSpaces | Verb::ListFree => &[Key::Region],
            Verb::ListRegions => &[],
            Verb::ToModule => &[Key::Region, Key::Spa],
            Verb::ToSpa => &[Key::Region, Key::Dimm, Key::Dpa],
            Verb::ToRuns => &[Key::Region, Key::Spa, Key::Length],
        }
    }

    /// Those of the keys that may not be left out.
    pub(crate) fn required(self) -> &'static [Key]
        ensures { result.now ≡ required_of self }
    {
        match self {
            Verb::Create => &[Key::Region, Key::Size],
            Verb::ListSpaces => &[],
            _ => self.keys(),
        }
    }

    /// The command with the values that the pieces of a text give to its keys.
    pub(crate) fn command(self, text: &str) -> Result<Command, WordFault>
        ensures { result ≡ command_of self (pieces text.now) }
    {
        match self {
            Verb::InitLabels => Ok(Command::InitLabels { dimm: dimm(text)? }),
            Verb::Create => create(text),
            Verb::Destroy => Ok(Command::Destroy {
                region: region(text)?,
                key: namespace(text)?,
            }),
            Verb::Rename => Ok(Command::Rename {
                region: region(text)?,
                key: namespace(text)?,
                name: name(text)?,
            }),
            Verb::ReleaseHeld => Ok(Command::ReleaseHeld {
                dimm: dimm(text)?,
                uuid: uuid(text)?,
            }),
            Verb::ListSpaces => Ok(Command::ListSpaces {
                region: optional_region(text)?,
            }),
            Verb::ListRegions => Ok(Command::ListRegions),
            Verb::ListFree => Ok(Command::ListFree {
                region: region(text)?,
            }),
            Verb::ListHeld => Ok(Command::ListHeld { dimm: dimm(text)? }),
            Verb::ToModule => Ok(Command::ToModule {
                region: region(text)?,
                spa: address(Key::Spa, text)?,
            }),
            Verb::ToSpa => Ok(Command::ToSpa {
                region: region(text)?,
                dimm: dimm(text)?,
                dpa: address(Key::Dpa, text)?,
            }),
            Verb::ToRuns => Ok(Command::ToRuns {
                region: region(text)?,
                spa: address(Key::Spa, text)?,
                length: size(Key::Length, text)?,
            }),
        }
    }
}

/// The namespace that is to be made by the values of a text.
fn create(text: &str) -> Result<Command, WordFault>
    ensures { result ≡ command_of Verb.Create (pieces text.now) }
{
    Ok(Command::Create {
        region: region(text)?,
        size: size(Key::Size, text)?,
        name: name_or_empty(text)?,
        abstraction: mode_or_raw(text)?.abstraction(),
        sector: sector_size_or_512(text)?,
        uuid: optional_uuid(text)?,
    })
}
