//! The first label of a namespace that gets another name.

ghost use Rattle.std.specs.Prelude.{◌≡◌, OnErr, OnOk};
ghost use Rattle.region_labels.specs.Fates.{platform_of};
ghost use Rattle.region_labels.specs.Modules.{labels_in};
ghost use Rattle.region_labels.specs.Regions.{handles};
ghost use Rattle.namespace_passes.specs.Healing.{CanHeal};
ghost use Rattle.namespace_passes.specs.Renaming.{IsBeforeOrRenamed, IsRenamed};
ghost use Rattle.module_flips.specs.Passes.{AreSized, IsPass, kept_of};
ghost use Rattle.namespace_passes.specs.Passes.{IsStill};

use crate::marked_labels::renamed_label;
use crate::places::place_at;
use module_flips::{AreaFailed, put_at};
use region_labels::{LoadedModule, RegionLabels};
use region_map::Region;
use rig_trait::Rig;

/// Replaces the label of position 0 of a namespace of a region, by one flip, with one that has another name and is
/// being changed. From then on the name is the namespace's, which is pending. The namespace is not read-only, and each
/// of the modules has a free slot. It takes no memory. A stop at any moment leaves areas that stand for the state
/// before, or for that with the name. `Err` where the rig failed, with the module's handle: what is kept is then as
/// before.
pub fn change_first<R: Rig>(
    rig: &mut R,
    modules: &mut [LoadedModule],
    regions: &mut [RegionLabels],
    region: &Region,
    uuid: &[u8; 16],
    name: &[u8; 64],
) -> Result<(), AreaFailed>
    requires can { CanHeal modules.old regions.old region.now uuid.now }
    requires sized { AreSized R.Shown rig.old modules.old }
    ensures renamed { OnOk result (IsRenamed modules.old regions.old region.now uuid.now name.now modules.new) }
    ensures kept { OnErr result (modules.new ≡ modules.old) }
    ensures kept_regions { OnErr result (regions.new ≡ regions.old) }
    ensures still { IsStill modules.old regions.old modules.new regions.new }
    ensures pass { IsPass (handles region.now)
        (IsBeforeOrRenamed (platform_of regions.old) region.now uuid.now name.now (labels_in modules.old))
        R.Shown (kept_of modules.old regions.old) rig.old (kept_of modules.new regions.new) rig.new result }
{
    let own = place_at(modules, regions, region, uuid, 0);
    let renamed = renamed_label(&own.label, name);
    put_at(rig, modules, regions, own.seat, &renamed, Some(own.slot))
}
