//! Room in the indexes of regions.

ghost use Rattle.std.specs.Prelude.{List, OnOk};
ghost use Rattle.std.specs.List.{All, AllZip};
ghost use Rattle.region_labels.specs.declared.modules.LoadedModule.{LoadedModule};
ghost use Rattle.region_labels.specs.Regions.{IsOver};
ghost use Rattle.region_labels.specs.Rooms.{HasRoom, KeepsEntries};

use crate::region::RegionLabels;
use std::alloc::AllocError;

/// Makes room in the index of each region for as many more entries as the region has members. After a refusal of
/// memory some of the room may be there.
pub fn reserve(regions: &mut [RegionLabels]) -> Result<(), AllocError>
    ensures room { OnOk result (All HasRoom regions.new) }
    ensures kept { AllZip KeepsEntries regions.old regions.new }
    ensures over { (modules : List LoadedModule) → All (IsOver modules) regions.old
        → All (IsOver modules) regions.new }
{
    for kept in regions.iter_mut() {
        reserve_in(kept)?;
    }
    Ok(())
}

fn reserve_in(kept: &mut RegionLabels) -> Result<(), AllocError>
    ensures room { OnOk result (HasRoom kept.new) }
    ensures kept { KeepsEntries kept.old kept.new }
{
    kept.index.reserve(kept.region.members.len())
}
