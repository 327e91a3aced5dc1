//! The memory that is taken before a change, so that no want of it can end a change half-way.

ghost use Rattle.std.specs.Prelude.{◌≡◌, OnOk, length, map};
ghost use Rattle.std.specs.List.{All};
ghost use Rattle.region_labels.specs.Modules.{module_in};
ghost use Rattle.module_flips.specs.Sweeps.{HasSlotsWithin};
ghost use Rattle.label_sets.specs.Room.{HasExtentRoom, HasLabelRoom, HaveExtentRoom};
ghost use Rattle.label_sets.specs.Room.{without_room, without_spare};

use extent_alloc::Extents;
use region_labels::{LoadedModule, RegionLabels};
use std::alloc::AllocError;

/// The greatest number of slots of a module.
pub(crate) fn most_slots(modules: &[LoadedModule]) -> u32
    ensures { All (HasSlotsWithin result) modules.now }
{
    let mut most = 0;
    for loaded in modules {
        most = loaded.slots().max(most);
    }
    most
}

/// Makes room in the index of each region for one more label of each of its modules.
pub(crate) fn reserve_labels(regions: &mut [RegionLabels]) -> Result<(), AllocError>
    ensures same { map without_room regions.new ≡ map without_room regions.old }
    ensures room { OnOk result (All HasLabelRoom regions.new) }
{
    for at in 0..regions.len() {
        reserve_label(&mut regions[at])?;
    }
    Ok(())
}

fn reserve_label(kept: &mut RegionLabels) -> Result<(), AllocError>
    ensures same { without_room kept.new ≡ without_room kept.old }
    ensures room { OnOk result (HasLabelRoom kept.new) }
{
    let members = kept.region.members.len();
    kept.index.reserve(members)
}

/// Makes room in the free space of each region for as many extents more as the region has live labels, and one.
pub(crate) fn reserve_extents(
    regions: &[RegionLabels],
    free: &mut [Extents],
) -> Result<(), AllocError>
    requires { length free.old ≡ length regions.now }
    ensures same { map without_spare free.new ≡ map without_spare free.old }
    ensures room { OnOk result (HaveExtentRoom regions.now free.new) }
{
    for at in 0..regions.len() {
        reserve_extent(&regions[at], &mut free[at])?;
    }
    Ok(())
}

fn reserve_extent(kept: &RegionLabels, free: &mut Extents) -> Result<(), AllocError>
    ensures same { without_spare free.new ≡ without_spare free.old }
    ensures room { OnOk result (HasExtentRoom kept.now free.new) }
{
    free.reserve(kept.index.entries().len() + 1)
}
