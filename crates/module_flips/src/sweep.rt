//! Junk and dead labels of a module are freed.

ghost use Rattle.std.specs.Prelude.{◌≡◌, ◌<◌, ◌≤◌, ◌∷◌, OnErr, OnOk, [], length, slice_index_or, vec_capacity};
ghost use Rattle.std.specs.List.{All};
ghost use Rattle.label_table.specs.Tables.{state};
ghost use Rattle.region_labels.specs.declared.modules.LoadedModule.{LoadedModule};
ghost use Rattle.region_labels.specs.Fates.{platform_of};
ghost use Rattle.region_labels.specs.Modules.{labels_in};
ghost use Rattle.region_labels.specs.Changes.{dimm_at};
ghost use Rattle.module_flips.specs.Flips.{IsReadyArea};
ghost use Rattle.module_flips.specs.Passes.{AreSized, IsPass, kept_of};
ghost use Rattle.module_flips.specs.Together.{IsTogether};
ghost use Rattle.module_flips.specs.Sweeps.{HasSlotsWithin, IsSwept, IsSweptTo};

use crate::flips::{AreaFailed, free_at};
use crate::lists::{list_labels, list_unwanted};
use region_labels::{LoadedModule, RegionLabels, SlotLabel};
use rig_trait::Rig;

/// Frees the junk and the dead labels of the module at a seat, whose area is Ready, by one flip, or by none where it
/// has neither. `slots` and `lost` have the memory for all slots of a module, so it takes none. A stop at any moment
/// leaves areas that stand for the same state. `Err` where the rig failed, with the module's handle: modules and
/// regions are as before then.
pub fn sweep_labels<R: Rig>(
    rig: &mut R,
    modules: &mut [LoadedModule],
    regions: &mut [RegionLabels],
    seat: usize,
    slots: &mut Vec<u32>,
    lost: &mut Vec<SlotLabel>,
) -> Result<(), AreaFailed>
    requires within { seat < length modules.old }
    requires ready { (d : LoadedModule) → IsReadyArea (slice_index_or modules.old seat d).area }
    requires together { IsTogether modules.old regions.old }
    requires slots { All (HasSlotsWithin (vec_capacity slots.old)) modules.old }
    requires lost { All (HasSlotsWithin (vec_capacity lost.old)) modules.old }
    requires sized { AreSized R.Shown rig.old modules.old }
    ensures swept { OnOk result (IsSweptTo modules.old regions.old modules.new regions.new seat) }
    ensures kept { OnErr result (modules.new ≡ modules.old) }
    ensures kept_regions { OnErr result (regions.new ≡ regions.old) }
    ensures slots { vec_capacity slots.old ≤ vec_capacity slots.new }
    ensures lost { vec_capacity lost.old ≤ vec_capacity lost.new }
    ensures pass { IsPass (dimm_at modules.old seat ∷ [])
        (λ labels. state (platform_of regions.old) labels ≡ state (platform_of regions.old) (labels_in modules.old))
        R.Shown (kept_of modules.old regions.old) rig.old (kept_of modules.new regions.new) rig.new result }
    ensures idle { ((d : LoadedModule)
        → IsSwept (platform_of regions.old) (labels_in modules.old) (slice_index_or modules.old seat d))
        → rig.new ≡ rig.old }
{
    let all = &modules[..];
    list_unwanted(slots, all, regions, &all[seat]);
    if slots.is_empty() {
        return Ok(());
    }
    list_labels(lost, &modules[seat], slots);
    free_at(rig, modules, regions, seat, slots, lost)
}
