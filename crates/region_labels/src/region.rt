//! A region over the modules that are loaded.

ghost use Rattle.std.specs.Prelude.{◌≡◌, IfOk};
ghost use Rattle.region_labels.specs.Modules.{EachOnce};

use crate::modules::LoadedModule;
use crate::seats::{index_of, seats_of};
use region_map::Region;
use std::alloc::{AllocError, Global};
use uuid_index::Index;
use view_types::List;

/// A region, and how the labels of its modules are found.
#[derive(Drop)]
pub struct RegionLabels {
    pub region: Region,
    /// Where the module of each member stands among the modules, by position.
    pub seats: Vec<usize>,
    /// The live labels of its modules.
    pub index: Index,
}

impl RegionLabels {
    ghost use Rattle.region_labels.specs.Regions.{AreKnown, IsOver};

    /// The region over modules among which its members' are.
    pub fn of(
        alloc: Global,
        modules: &[LoadedModule],
        region: &Region,
    ) -> Result<RegionLabels, AllocError>
        requires once { EachOnce modules.now }
        requires known { AreKnown modules.now region.now.members }
        ensures over { IfOk result (λ kept. IsOver modules.now kept) }
        ensures region { IfOk result (λ kept. kept.region ≡ region.now) }
    {
        let seats = seats_of(alloc, modules, region.members.as_slice())?;
        let index = index_of(alloc, modules, region, &seats)?;
        let region = copy_of(alloc, region)?;
        Ok(RegionLabels {
            region,
            seats,
            index,
        })
    }
}

fn copy_of(alloc: Global, region: &Region) -> Result<Region, AllocError>
    ensures { IfOk result (λ copy. copy ≡ region.now) }
{
    let members = Vec::from_slice(alloc, region.members.as_slice())?;
    Ok(Region {
        index: region.index,
        spa: region.spa,
        length: region.length,
        rule: region.rule,
        members: List::from_vec(members),
        cookie: region.cookie,
    })
}
