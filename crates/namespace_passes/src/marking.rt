//! All labels of a namespace are marked as being changed, one flip for each that is not yet.

ghost use Rattle.std.specs.Prelude.{◌≡◌, ◌<◌, OnOk, length};
ghost use Rattle.region_labels.specs.Fates.{platform_of};
ghost use Rattle.region_labels.specs.Modules.{labels_in};
ghost use Rattle.region_labels.specs.Regions.{handles};
ghost use Rattle.namespace_passes.specs.Healing.{CanHeal};
ghost use Rattle.namespace_passes.specs.Marking.{AreUpdating, IsMarked, IsMarkedAt, IsUpdatingAt};
ghost use Rattle.module_flips.specs.Passes.{AreSized, IsPass, kept_of};
ghost use Rattle.namespace_passes.specs.Passes.{HasTableOf, IsStill};

use crate::marked_labels::marked_label;
use crate::places::place_at;
use module_flips::{AreaFailed, put_at};
use region_labels::{LoadedModule, RegionLabels};
use region_map::Region;
use rig_trait::Rig;

/// Marks each label of a namespace of a region as being changed, by ascending position and one flip each. A label that
/// is being changed already is left alone. The namespace is not read-only, and each of the modules has a free slot. It
/// takes no memory. A stop at any moment leaves areas that stand for the same table. `Err` where the rig failed, with
/// the module's handle: what is kept is then what the flips before the failure made.
pub fn mark_labels<R: Rig>(
    rig: &mut R,
    modules: &mut [LoadedModule],
    regions: &mut [RegionLabels],
    region: &Region,
    uuid: &[u8; 16],
) -> Result<(), AreaFailed>
    requires can { CanHeal modules.old regions.old region.now uuid.now }
    requires sized { AreSized R.Shown rig.old modules.old }
    ensures marked { OnOk result (IsMarked modules.old regions.old region.now uuid.now modules.new) }
    ensures still { IsStill modules.old regions.old modules.new regions.new }
    ensures pass { IsPass (handles region.now) (HasTableOf modules.old regions.old)
        R.Shown (kept_of modules.old regions.old) rig.old (kept_of modules.new regions.new) rig.new result }
    ensures idle { AreUpdating (labels_in modules.old) region.now uuid.now → rig.new ≡ rig.old }
{
    for position in 0..region.members.len() {
        match mark_at(rig, modules, regions, region, uuid, position) {
            Ok(()) => (),
            Err(failed) => return Err(failed),
        }
    }
    Ok(())
}

/// Marks the label of one position as being changed, by one flip, or by none where it is already.
fn mark_at<R: Rig>(
    rig: &mut R,
    modules: &mut [LoadedModule],
    regions: &mut [RegionLabels],
    region: &Region,
    uuid: &[u8; 16],
    position: usize,
) -> Result<(), AreaFailed>
    requires within { position < length region.now.members }
    requires can { CanHeal modules.old regions.old region.now uuid.now }
    requires sized { AreSized R.Shown rig.old modules.old }
    ensures marked { OnOk result (IsMarkedAt (platform_of regions.old) region.now uuid.now position
        (labels_in modules.old) (labels_in modules.new)) }
    ensures still { IsStill modules.old regions.old modules.new regions.new }
    ensures pass { IsPass (handles region.now) (HasTableOf modules.old regions.old)
        R.Shown (kept_of modules.old regions.old) rig.old (kept_of modules.new regions.new) rig.new result }
    ensures idle { IsUpdatingAt (labels_in modules.old) region.now uuid.now position
        → (rig.new ≡ rig.old) × (modules.new ≡ modules.old) }
{
    let own = place_at(modules, regions, region, uuid, position);
    if own.label.is_updating() {
        return Ok(());
    }
    let marked = marked_label(&own.label);
    put_at(rig, modules, regions, own.seat, &marked, Some(own.slot))
}
