//! The labels of a namespace are freed, one flip for each.

ghost use Rattle.std.specs.Prelude.{◌≡◌, ◌<◌, OnErr, OnOk, length, map};
ghost use Rattle.std.specs.List.{All, AllZip, Contains};
ghost use Rattle.label_table.specs.Belonging.{member_at};
ghost use Rattle.region_labels.specs.Rooms.{KeepsRegion, room_after_free};
ghost use Rattle.region_labels.specs.Fates.{platform_of, region_in};
ghost use Rattle.region_labels.specs.Modules.{labels_in};
ghost use Rattle.region_labels.specs.Regions.{handles};
ghost use Rattle.module_flips.specs.Together.{IsTogether, StaysTogether};
ghost use Rattle.namespace_passes.specs.Dropping.{CanDrop, IsBeforeOrLost, IsBeforeOrWithout, IsDropped};
ghost use Rattle.namespace_passes.specs.Healing.{HasOneAt};
ghost use Rattle.namespace_passes.specs.Dropping.{GivesSlot, IsKeptOrGone, LosesLabel, room_after_drop};
ghost use Rattle.module_flips.specs.Passes.{AreSized, IsPass, kept_of};

use crate::places::place_of;
use module_flips::{AreaFailed, free_at};
use region_labels::{LoadedModule, RegionLabels, SlotLabel};
use region_map::Region;
use rig_trait::Rig;

/// Frees the labels of a namespace of a region, by ascending position and one flip each. All of them are marked as
/// being changed, and none is read-only. By the first flip the namespace is gone, and each module of the region has a
/// slot more to spare. It takes no memory. A stop at any moment leaves areas that stand for the state before, or for
/// that without the namespace. `Err` where the rig failed, with the module's handle: what is kept is then what the
/// flips before the failure made, so that the namespace is gone exactly where the module at position 0 has lost its
/// label.
pub fn drop_labels<R: Rig>(
    rig: &mut R,
    modules: &mut [LoadedModule],
    regions: &mut [RegionLabels],
    region: &Region,
    uuid: &[u8; 16],
) -> Result<(), AreaFailed>
    requires can { CanDrop modules.old regions.old region.now uuid.now }
    requires sized { AreSized R.Shown rig.old modules.old }
    ensures dropped { OnOk result (IsDropped modules.old regions.old region.now uuid.now modules.new) }
    ensures failed { OnErr result (IsKeptOrGone modules.old regions.old region.now uuid.now modules.new) }
    ensures together { StaysTogether modules.old regions.old modules.new regions.new }
    ensures pass { IsPass (handles region.now) (IsBeforeOrWithout (platform_of regions.old) region.now uuid.now (labels_in modules.old))
        R.Shown (kept_of modules.old regions.old) rig.old (kept_of modules.new regions.new) rig.new result }
    ensures room { OnOk result (AllZip (KeepsRegion (room_after_drop region.now)) regions.old regions.new) }
{
    for position in 0..region.members.len() {
        match drop_at(rig, modules, regions, region, uuid, position) {
            Ok(()) => (),
            Err(failed) => return Err(failed),
        }
    }
    Ok(())
}

/// Frees the only label with the uuid in the module at a position. After a failure modules and regions are as before.
fn drop_at<R: Rig>(
    rig: &mut R,
    modules: &mut [LoadedModule],
    regions: &mut [RegionLabels],
    region: &Region,
    uuid: &[u8; 16],
    position: usize,
) -> Result<(), AreaFailed>
    requires within { position < length region.now.members }
    requires together { IsTogether modules.old regions.old }
    requires region_in { Contains (map region_in regions.old) region.now }
    requires one { HasOneAt (labels_in modules.old) region.now uuid.now position }
    requires sized { AreSized R.Shown rig.old modules.old }
    ensures lost { OnOk result
        (LosesLabel region.now uuid.now position (labels_in modules.old) (labels_in modules.new)) }
    ensures gives { OnOk result (GivesSlot (member_at region.now position).handle modules.old modules.new) }
    ensures kept { OnErr result (modules.new ≡ modules.old) }
    ensures kept_regions { OnErr result (regions.new ≡ regions.old) }
    ensures together { StaysTogether modules.old regions.old modules.new regions.new }
    ensures pass { IsPass (handles region.now) (IsBeforeOrLost region.now uuid.now position (labels_in modules.old))
        R.Shown (kept_of modules.old regions.old) rig.old (kept_of modules.new regions.new) rig.new result }
    ensures room { OnOk result (AllZip (KeepsRegion (room_after_free (member_at region.now position).handle 1))
        regions.old regions.new) }
{
    let own = place_of(modules, regions, region, uuid, position);
    let uuid = own.label.uuid;
    let lost = SlotLabel {
        uuid,
        slot: own.slot,
    };
    free_at(rig, modules, regions, own.seat, &[own.slot], &[lost])
}
