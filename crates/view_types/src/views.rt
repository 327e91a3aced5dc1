//! What is shown of regions and modules.

use crate::extents::Extent;
use crate::list::List;
use crate::namespaces::{Held, Namespace};
use crate::states::{AreaState, Status};

/// A region with its namespaces and its free space. Addresses and lengths are in bytes.
#[derive(Drop)]
pub struct RegionView {
    /// The index of the range (ACPI 6.2, section 5.2.25.2): the region's name.
    pub index: u16,
    /// The lowest system physical address (SPA).
    pub spa: u64,
    pub length: u64,
    /// The number of members. 0 where the region cannot be used.
    pub ways: u16,
    /// The interleave set cookie. 0 where the region cannot be used.
    pub cookie: u64,
    pub status: Status,
    /// By offset and then by uuid. Empty where the status is neither Ready nor Clash.
    pub namespaces: List<Namespace>,
    /// The free extents of each member's part, ascending. Empty where the region is not Ready.
    pub free: List<Extent>,
}

/// A module with its held labels.
#[derive(Drop)]
pub struct ModuleView {
    /// The device handle.
    pub dimm: u32,
    pub state: AreaState,
    /// By address, size, uuid, then flags with no before yes in the order local, read-only, updating, and then region
    /// with none first.
    pub held: List<Held>,
}

/// A platform with the state that the areas of its modules stand for.
#[derive(Drop)]
pub struct View {
    /// By index.
    pub regions: List<RegionView>,
    /// By handle.
    pub modules: List<ModuleView>,
}
