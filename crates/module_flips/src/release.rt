//! The held labels with a uuid of a module are given up.

ghost use Rattle.std.specs.Prelude.{◌≡◌, ◌<◌, ◌≤◌, ◌∷◌, IfOk, OnErr, OnOk, [], length, slice_index_or};
ghost use Rattle.std.specs.Prelude.{vec_capacity};
ghost use Rattle.std.specs.List.{All};
ghost use Rattle.label_codec.specs.ModuleLabels.{has};
ghost use Rattle.label_table.specs.Fates.{held_count};
ghost use Rattle.region_labels.specs.declared.modules.LoadedModule.{LoadedModule};
ghost use Rattle.region_labels.specs.Fates.{platform_of};
ghost use Rattle.region_labels.specs.Modules.{labels_in};
ghost use Rattle.region_labels.specs.Changes.{dimm_at};
ghost use Rattle.module_flips.specs.Flips.{IsReadyArea};
ghost use Rattle.module_flips.specs.Passes.{AreSized, IsPass, kept_of};
ghost use Rattle.module_flips.specs.Together.{IsTogether};
ghost use Rattle.module_flips.specs.Releases.{IsBeforeOrReleased, IsReleasedTo};
ghost use Rattle.module_flips.specs.Sweeps.{HasSlotsWithin};

use crate::flips::{AreaFailed, free_at};
use crate::lists::{count_labels, list_labels, list_released};
use region_labels::{LoadedModule, RegionLabels, SlotLabel};
use rig_trait::Rig;

/// Gives up the held labels with a uuid of the module at a seat, and answers how many they are. The module holds one
/// at least, and then none of its labels with the uuid is part of a namespace, nor dead. Its junk and its dead labels
/// go by the same flip. Stale labels that other modules of a region held may be dead afterwards. `slots` and `lost`
/// have the memory for all slots of a module, so it takes none. A stop at any moment leaves areas that stand for the
/// state before, or for that without these labels. `Err` where the rig failed, with the module's handle: modules and
/// regions are as before then.
pub fn release_labels<R: Rig>(
    rig: &mut R,
    modules: &mut [LoadedModule],
    regions: &mut [RegionLabels],
    seat: usize,
    uuid: &[u8; 16],
    slots: &mut Vec<u32>,
    lost: &mut Vec<SlotLabel>,
) -> Result<u32, AreaFailed>
    requires within { seat < length modules.old }
    requires ready { (d : LoadedModule) → IsReadyArea (slice_index_or modules.old seat d).area }
    requires together { IsTogether modules.old regions.old }
    requires held { 0 < held_count (platform_of regions.old) (labels_in modules.old) (dimm_at modules.old seat)
        (has uuid.now) }
    requires slots { All (HasSlotsWithin (vec_capacity slots.old)) modules.old }
    requires lost { All (HasSlotsWithin (vec_capacity lost.old)) modules.old }
    requires sized { AreSized R.Shown rig.old modules.old }
    ensures count { IfOk result (λ count. count ≡ held_count (platform_of regions.old) (labels_in modules.old)
        (dimm_at modules.old seat) (has uuid.now)) }
    ensures released { OnOk result (IsReleasedTo modules.old regions.old modules.new regions.new seat uuid.now) }
    ensures kept { OnErr result (modules.new ≡ modules.old) }
    ensures kept_regions { OnErr result (regions.new ≡ regions.old) }
    ensures slots { vec_capacity slots.old ≤ vec_capacity slots.new }
    ensures lost { vec_capacity lost.old ≤ vec_capacity lost.new }
    ensures pass { IsPass (dimm_at modules.old seat ∷ [])
        (IsBeforeOrReleased (platform_of regions.old) (dimm_at modules.old seat) uuid.now (labels_in modules.old))
        R.Shown (kept_of modules.old regions.old) rig.old (kept_of modules.new regions.new) rig.new result }
{
    let all = &modules[..];
    list_released(slots, all, regions, &all[seat], uuid);
    list_labels(lost, &modules[seat], slots);
    let count = count_labels(&modules[seat], uuid);
    match free_at(rig, modules, regions, seat, slots, lost) {
        Ok(()) => Ok(count),
        Err(failed) => Err(failed),
    }
}
