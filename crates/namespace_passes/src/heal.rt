//! The labels of a namespace are healed, one flip for each that needs it.

ghost use Rattle.std.specs.Prelude.{◌≡◌, ◌<◌, Some, OnOk, length};
ghost use Rattle.label_codec.specs.declared.label.Label.{Label};
ghost use Rattle.label_table.specs.Wholes.{labels_with, leading_label};
ghost use Rattle.region_labels.specs.Fates.{platform_of};
ghost use Rattle.region_labels.specs.Modules.{labels_in};
ghost use Rattle.region_labels.specs.Regions.{handles};
ghost use Rattle.namespace_passes.specs.Healing.{CanHeal, CanTurn, IsHealed};
ghost use Rattle.namespace_passes.specs.Namespaces.{IsAlikeAt, IsHealedTo, IsTurned, IsWellFrom};
ghost use Rattle.module_flips.specs.Passes.{AreSized, IsPass, kept_of};
ghost use Rattle.namespace_passes.specs.Passes.{HasTableOf, IsStill};

use crate::labels::{healed_label, needs_healing};
use crate::places::place_at;
use label_codec::Label;
use module_flips::{AreaFailed, put_at};
use region_labels::{LoadedModule, RegionLabels};
use region_map::Region;
use rig_trait::Rig;

/// Heals a namespace of a region that is not read-only. Each label of the positions from 1 on that is being changed, or
/// differs from that of position 0 in name, sector size, abstraction or length, is replaced by one that has these of it
/// and is no longer being changed. Then the label of position 0 is, where it is being changed. Each of the modules has
/// a free slot. It takes no memory. A stop at any moment leaves areas that stand for the same table. `Err` where the
/// rig failed, with the module's handle: what is kept is then what the flips before the failure made.
pub fn heal_labels<R: Rig>(
    rig: &mut R,
    modules: &mut [LoadedModule],
    regions: &mut [RegionLabels],
    region: &Region,
    uuid: &[u8; 16],
) -> Result<(), AreaFailed>
    requires heal { CanHeal modules.old regions.old region.now uuid.now }
    requires sized { AreSized R.Shown rig.old modules.old }
    ensures healed { OnOk result (IsHealed modules.old regions.old region.now uuid.now modules.new) }
    ensures still { IsStill modules.old regions.old modules.new regions.new }
    ensures pass { IsPass (handles region.now) (HasTableOf modules.old regions.old)
        R.Shown (kept_of modules.old regions.old) rig.old (kept_of modules.new regions.new) rig.new result }
    ensures idle { (leading : Label) → leading_label region.now (labels_with uuid.now (labels_in modules.old))
        ≡ Some leading → IsWellFrom 0 (labels_in modules.old) region.now uuid.now leading → rig.new ≡ rig.old }
{
    let leading = place_at(modules, regions, region, uuid, 0).label;
    match heal_others(rig, modules, regions, region, uuid, &leading) {
        Ok(()) => heal_at(rig, modules, regions, region, uuid, &leading, 0),
        Err(failed) => Err(failed),
    }
}

/// Heals the labels of the positions from 1 on. `leading` is the label of position 0.
fn heal_others<R: Rig>(
    rig: &mut R,
    modules: &mut [LoadedModule],
    regions: &mut [RegionLabels],
    region: &Region,
    uuid: &[u8; 16],
    leading: &Label,
) -> Result<(), AreaFailed>
    requires heal { CanHeal modules.old regions.old region.now uuid.now }
    requires leads { leading_label region.now (labels_with uuid.now (labels_in modules.old)) ≡ Some leading.now }
    requires sized { AreSized R.Shown rig.old modules.old }
    ensures healed { OnOk result (IsHealedTo (platform_of regions.old) region.now uuid.now leading.now
        (length region.now.members) (labels_in modules.old) (labels_in modules.new)) }
    ensures still { IsStill modules.old regions.old modules.new regions.new }
    ensures pass { IsPass (handles region.now) (HasTableOf modules.old regions.old)
        R.Shown (kept_of modules.old regions.old) rig.old (kept_of modules.new regions.new) rig.new result }
    ensures idle { IsWellFrom 1 (labels_in modules.old) region.now uuid.now leading.now
        → (rig.new ≡ rig.old) × (modules.new ≡ modules.old) }
{
    for position in 1..region.members.len() {
        match heal_at(rig, modules, regions, region, uuid, leading, position) {
            Ok(()) => (),
            Err(failed) => return Err(failed),
        }
    }
    Ok(())
}

/// Heals the label of one position, by one flip, or by none where it needs no healing. `leading` is the label of
/// position 0, whose turn is the last.
fn heal_at<R: Rig>(
    rig: &mut R,
    modules: &mut [LoadedModule],
    regions: &mut [RegionLabels],
    region: &Region,
    uuid: &[u8; 16],
    leading: &Label,
    position: usize,
) -> Result<(), AreaFailed>
    requires within { position < length region.now.members }
    requires turn { CanTurn modules.old regions.old region.now uuid.now leading.now position }
    requires sized { AreSized R.Shown rig.old modules.old }
    ensures turned { OnOk result (IsTurned (platform_of regions.old) region.now uuid.now leading.now position
        (labels_in modules.old) (labels_in modules.new)) }
    ensures still { IsStill modules.old regions.old modules.new regions.new }
    ensures pass { IsPass (handles region.now) (HasTableOf modules.old regions.old)
        R.Shown (kept_of modules.old regions.old) rig.old (kept_of modules.new regions.new) rig.new result }
    ensures idle { IsAlikeAt (labels_in modules.old) region.now uuid.now leading.now position
        → (rig.new ≡ rig.old) × (modules.new ≡ modules.old) }
{
    let own = place_at(modules, regions, region, uuid, position);
    if !needs_healing(leading, &own.label) {
        return Ok(());
    }
    let healed = healed_label(leading, &own.label);
    put_at(rig, modules, regions, own.seat, &healed, Some(own.slot))
}
