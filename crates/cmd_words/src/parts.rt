//! The parts that commands are: a change, a query or a translation.

ghost use Rattle.std.specs.Prelude.{◌≡◌};
ghost use Rattle.cmd_words.specs.Parts.{part_of};

use crate::commands::Command;
use crate::name_keys::NameKey;

/// What is asked by a command.
#[derive(Clone, Copy, Debug, PartialEq, Eq)]
pub enum Part {
    /// A change of the label storage areas.
    Change(Change),
    /// Something that their state tells.
    Query(Query),
    /// Addresses of a region, which the platform alone tells.
    Translation(Translation),
}

/// A command that changes the label storage areas. For the values see `Command`.
#[derive(Clone, Copy, Debug, PartialEq, Eq)]
pub enum Change {
    /// The area of a module is initialised.
    InitLabels {
        dimm: u32,
    },
    /// A namespace is made.
    Create {
        region: u16,
        size: u64,
        name: [u8; 64],
        abstraction: [u8; 16],
        sector: u64,
        uuid: Option<[u8; 16]>,
    },
    /// A namespace is taken away.
    Destroy {
        region: u16,
        key: NameKey,
    },
    /// A namespace gets a name.
    Rename {
        region: u16,
        key: NameKey,
        name: [u8; 64],
    },
    /// Held labels are given up.
    ReleaseHeld {
        dimm: u32,
        uuid: [u8; 16],
    },
}

/// What is asked of the state.
#[derive(Clone, Copy, Debug, PartialEq, Eq)]
pub enum Query {
    /// The namespaces of a region, or of all regions that are Ready.
    Spaces { region: Option<u16> },
    /// All regions.
    Regions,
    /// The free extents of a region.
    Free { region: u16 },
    /// The held labels of the module with this device handle.
    Held { dimm: u32 },
}

/// What is asked of the addresses of a region.
#[derive(Clone, Copy, Debug, PartialEq, Eq)]
pub enum Translation {
    /// The module and the device physical address of a system physical address.
    Module { region: u16, spa: u64 },
    /// The system physical address of a device physical address of a module.
    Spa { region: u16, dimm: u32, dpa: u64 },
    /// The module addresses of a range of system physical addresses.
    Runs { region: u16, spa: u64, length: u64 },
}

impl Command {
    /// What part of the commands this one is.
    pub fn part(self) -> Part
        ensures { result ≡ part_of self }
    {
        match self {
            Command::InitLabels { dimm } => Part::Change(Change::InitLabels { dimm }),
            Command::Create {
                region,
                size,
                name,
                abstraction,
                sector,
                uuid,
            } => Part::Change(Change::Create {
                region,
                size,
                name,
                abstraction,
                sector,
                uuid,
            }),
            Command::Destroy { region, key } => Part::Change(Change::Destroy { region, key }),
            Command::Rename { region, key, name } => {
                Part::Change(Change::Rename { region, key, name })
            }
            Command::ReleaseHeld { dimm, uuid } => {
                Part::Change(Change::ReleaseHeld { dimm, uuid })
            }
            Command::ListSpaces { region } => Part::Query(Query::Spaces { region }),
            Command::ListRegions => Part::Query(Query::Regions),
            Command::ListFree { region } => Part::Query(Query::Free { region }),
            Command::ListHeld { dimm } => Part::Query(Query::Held { dimm }),
            Command::ToModule { region, spa } => {
                Part::Translation(Translation::Module { region, spa })
            }
            Command::ToSpa { region, dimm, dpa } => {
                Part::Translation(Translation::Spa { region, dimm, dpa })
            }
            Command::ToRuns {
                region,
                spa,
                length,
            } => Part::Translation(Translation::Runs {
                region,
                spa,
                length,
            }),
        }
    }
}
