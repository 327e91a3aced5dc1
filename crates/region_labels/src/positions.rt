//! The slots of the modules of a region, by position.

ghost use Rattle.std.specs.Prelude.{◌≡◌, ◌<◌, Some, find, length};
ghost use Rattle.std.specs.List.{All};
ghost use Rattle.label_table.specs.Belonging.{member_at};
ghost use Rattle.region_labels.specs.Fates.{platform_of};
ghost use Rattle.region_labels.specs.Modules.{is_of, labels_in};
ghost use Rattle.region_labels.specs.Regions.{IsOver};
ghost use Rattle.region_labels.specs.Positions.{IsFirstWithoutSpare, free_slots, free_slots_of, spare_at};

use crate::held::spare;
use crate::modules::{LoadedModule, ModuleArea};
use crate::region::RegionLabels;

/// How many slots of a region's module are left for new labels.
#[derive(Clone, Copy, Debug, PartialEq, Eq)]
pub struct ModuleSpare {
    pub position: usize,
    /// The device handle.
    pub dimm: u32,
    pub spare: u32,
}

/// The number of free slots of the module at a position: 0 where its area is not Ready.
pub fn free_slots_at(modules: &[LoadedModule], kept: &RegionLabels, position: usize) -> u32
    requires over { IsOver modules.now kept.now }
    requires position { position < length kept.now.region.members }
    ensures { result ≡ free_slots modules.now (member_at kept.now.region position).handle }
{
    free_slots(loaded_at(modules, kept, position))
}

fn free_slots(loaded: &LoadedModule) -> u32
    ensures { result ≡ free_slots_of loaded.now.area }
{
    match &loaded.area {
        ModuleArea::Missing => 0,
        ModuleArea::WrongSize { .. } => 0,
        ModuleArea::Uninit { .. } => 0,
        ModuleArea::Foreign { .. } => 0,
        ModuleArea::Ready(area) => area.free_count(),
    }
}

/// The module of the member at a position.
fn loaded_at<'a>(
    modules: &'a [LoadedModule],
    kept: &RegionLabels,
    position: usize,
) -> &'a LoadedModule
    requires over { IsOver modules.now kept.now }
    requires position { position < length kept.now.region.members }
    ensures { find (is_of (member_at kept.now.region position).handle) modules.now ≡ Some result.now }
{
    let seat = kept.seats[position];
    &modules[seat]
}

/// How many slots of the module at a position are left for new labels: those without a label that isn't dead.
pub fn spare_at(
    modules: &[LoadedModule],
    regions: &[RegionLabels],
    kept: &RegionLabels,
    position: usize,
) -> u32
    requires regions { All (IsOver modules.now) regions.now }
    requires over { IsOver modules.now kept.now }
    requires position { position < length kept.now.region.members }
    ensures { result ≡ spare_at (platform_of regions.now) (labels_in modules.now) kept.now.region position }
{
    spare(modules, regions, kept.module_at(modules, position))
}

/// The first position whose module has fewer slots left for new labels than `least`. `None` exactly where all have as
/// many.
pub fn first_without_spare(
    modules: &[LoadedModule],
    regions: &[RegionLabels],
    kept: &RegionLabels,
    least: u32,
) -> Option<ModuleSpare>
    requires regions { All (IsOver modules.now) regions.now }
    requires over { IsOver modules.now kept.now }
    ensures { IsFirstWithoutSpare (platform_of regions.now) (labels_in modules.now) kept.now.region least result }
{
    for position in 0..kept.region.members.len() {
        let spare = spare_at(modules, regions, kept, position);
        if spare < least {
            let dimm = kept.region.members.as_slice()[position].handle;
            return Some(ModuleSpare {
                position,
                dimm,
                spare,
            });
        }
    }
    None
}
