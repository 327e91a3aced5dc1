//! The states of label storage areas and of regions.

use crate::rule::Rule;

/// The state of a module's label storage area.
#[derive(Clone, Copy, Debug, PartialEq, Eq)]
pub enum AreaState {
    /// The module has no area.
    Missing,
    /// Its size is not one that an area can have.
    WrongSize,
    /// It has no signed index block.
    Uninit,
    /// It has a signed index block, and none that is usable here.
    Foreign,
    /// It holds labels: the number of its slots, and of those that are left for new labels.
    Ready { slots: u32, spare: u32 },
}

/// The status of a region: the first of these that applies.
#[derive(Clone, Copy, Debug, PartialEq, Eq)]
pub enum Status {
    /// The region cannot be used.
    Unusable(Rule),
    /// The area of this module is in this state, which is not Ready. It is the first such module by position.
    Area { dimm: u32, state: AreaState },
    /// The namespaces with these uuids overlap. They are the first such neighbours by offset and then by uuid.
    Clash { first: [u8; 16], second: [u8; 16] },
    Ready,
}
