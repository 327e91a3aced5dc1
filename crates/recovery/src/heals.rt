//! The pending namespaces of a region are healed, one after the other.

ghost use Rattle.std.specs.Prelude.{◌≡◌, ◌<◌, OnOk, Some, true};
ghost use Rattle.region_map.specs.Platforms.{IsSound, region_at};
ghost use Rattle.label_table.specs.Spaces.{is_pending};
ghost use Rattle.region_labels.specs.Regions.{handles};
ghost use Rattle.label_sets.specs.Sets.{IsTableOf, kept_in, labels_in, platform_in};
ghost use Rattle.label_sets.specs.Healing.{IsHealedIn};
ghost use Rattle.recovery.specs.Recovery.{pending_count};
ghost use Rattle.recovery.specs.Steps.{AreHealed, CanHealPending};
ghost use Rattle.module_flips.specs.Passes.{AreSized, IsPass};

use label_sets::{AreaFailed, Sets};
use region_map::{Platform, Region};
use rig_trait::Rig;

/// Heals each pending namespace of a Ready region, by offset and then by uuid. The table stays.
pub(crate) fn heal_pending<R: Rig>(
    rig: &mut R,
    platform: &Platform,
    sets: &mut Sets,
    found: &Region,
) -> Result<(), AreaFailed>
    requires sound { IsSound platform.now }
    requires platform { platform.now.regions ≡ sets.old.regions }
    requires found { region_at (platform_in sets.old) found.now.index ≡ Some found.now }
    requires heal { CanHealPending sets.old found.now }
    requires sized { AreSized R.Shown rig.old sets.old.modules }
    ensures healed { OnOk result (AreHealed sets.old sets.new found.now) }
    ensures room { sets.new.room ≡ sets.old.room }
    ensures pass { IsPass (handles found.now) (IsTableOf sets.old)
        R.Shown (kept_in sets.old) rig.old (kept_in sets.new) rig.new result }
{
    while let Some(uuid) = sets.first_pending(found.index) {
        match heal_one(rig, platform, sets, found, &uuid) {
            Ok(()) => (),
            Err(failed) => return Err(failed),
        }
    }
    Ok(())
}

/// Heals a pending namespace. One less is pending then.
fn heal_one<R: Rig>(
    rig: &mut R,
    platform: &Platform,
    sets: &mut Sets,
    found: &Region,
    uuid: &[u8; 16],
) -> Result<(), AreaFailed>
    requires sound { IsSound platform.now }
    requires platform { platform.now.regions ≡ sets.old.regions }
    requires found { region_at (platform_in sets.old) found.now.index ≡ Some found.now }
    requires heal { CanHealPending sets.old found.now }
    requires pending { is_pending (labels_in sets.old) found.now uuid.now ≡ true }
    requires sized { AreSized R.Shown rig.old sets.old.modules }
    ensures healed { OnOk result (IsHealedIn sets.old sets.new uuid.now found.now) }
    ensures fewer { OnOk result
        (pending_count (labels_in sets.new) found.now < pending_count (labels_in sets.old) found.now) }
    ensures room { sets.new.room ≡ sets.old.room }
    ensures pass { IsPass (handles found.now) (IsTableOf sets.old)
        R.Shown (kept_in sets.old) rig.old (kept_in sets.new) rig.new result }
{
    sets.clear_all(rig, platform, found.index, uuid)
}
