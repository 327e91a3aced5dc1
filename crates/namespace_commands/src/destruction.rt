//! The command that takes a namespace away.

ghost use Rattle.std.specs.Prelude.{◌≡◌, OnOk, Some};
ghost use Rattle.region_map.specs.Platforms.{IsSound, region_at};
ghost use Rattle.label_table.specs.Tables.{without_namespace};
ghost use Rattle.region_labels.specs.Regions.{handles};
ghost use Rattle.label_sets.specs.Healing.{CanHealIn};
ghost use Rattle.label_sets.specs.Sets.{kept_in, labels_in, state_in};
ghost use Rattle.table_steps.specs.Destroy.{Destroys, with_destroyed};
ghost use Rattle.namespace_commands.specs.Commands.{IsChange, IsTableOrWithout};
ghost use Rattle.namespace_commands.specs.Create.{modules_of};
ghost use Rattle.namespace_commands.specs.Keys.{CanChange};
ghost use Rattle.namespace_commands.specs.Lists.{IsStateOf};
ghost use Rattle.module_flips.specs.Passes.{AreSized, IsPass};

use crate::creation::ChangeFault;
use crate::key_refusals::doomed_space;
use crate::recovering::recover_ready;
use crate::refusals::Unanswered;
use cmd_words::NameKey;
use label_sets::{AreaFailed, Sets};
use region_map::{Platform, Region};
use rig_trait::Rig;
use std::alloc::Global;
use view_types::{Namespace, Reply};

/// Takes the namespace of a region that fits a key away: after the region is recovered, all labels of the namespace are
/// marked as being changed, and then they are freed. The reply tells its uuid, or why nothing was done: nothing was
/// written then. A stop at any moment leaves areas that stand for the table before the command, or for that behind it.
pub fn destroy<R: Rig>(
    alloc: Global,
    rig: &mut R,
    platform: &Platform,
    sets: &mut Sets,
    region: u16,
    key: &NameKey,
) -> Result<Reply, ChangeFault>
    requires sound { IsSound platform.now }
    requires state { IsStateOf platform.now sets.old }
    requires sized { AreSized R.Shown rig.old sets.old.modules }
    ensures { IsChange (modules_of platform.now region) platform.now
        (Destroys platform.now (labels_in sets.old) region key.now)
        R.Shown sets.old rig.old sets.new rig.new result }
{
    let space = match doomed_space(alloc, platform, sets, region, key) {
        Ok(space) => space,
        Err(Unanswered::Refused(refusal)) => return Ok(Reply::Refused(refusal)),
        Err(Unanswered::Memory) => return Err(ChangeFault::Memory),
    };
    let Some(found) = platform.region(region) else {
        // Else it is refused.
        unreachable!()
    };
    match take_away(rig, platform, sets, found, &space) {
        Ok(()) => {
            let uuid = space.uuid;
            Ok(Reply::Destroyed { uuid })
        }
        Err(failed) => Err(ChangeFault::Area { dimm: failed.dimm }),
    }
}

/// Takes away a namespace that can be changed, after its region is recovered.
fn take_away<R: Rig>(
    rig: &mut R,
    platform: &Platform,
    sets: &mut Sets,
    region: &Region,
    space: &Namespace,
) -> Result<(), AreaFailed>
    requires sound { IsSound platform.now }
    requires platform { platform.now.regions ≡ sets.old.regions }
    requires known { region_at platform.now region.now.index ≡ Some region.now }
    requires change { CanChange platform.now (labels_in sets.old) space.now region.now }
    requires sized { AreSized R.Shown rig.old sets.old.modules }
    ensures destroyed { OnOk result
        (state_in sets.new ≡ with_destroyed region.now space.now.uuid (state_in sets.old)) }
    ensures pass { IsPass (handles region.now) (IsTableOrWithout sets.old region.now space.now.uuid) R.Shown
        (kept_in sets.old) rig.old (kept_in sets.new) rig.new result }
{
    match recover_ready(rig, platform, sets, region) {
        Ok(()) => free_labels(rig, platform, sets, region, &space.uuid),
        Err(failed) => Err(failed),
    }
}

/// Marks all labels of a namespace as being changed, and then frees them.
fn free_labels<R: Rig>(
    rig: &mut R,
    platform: &Platform,
    sets: &mut Sets,
    region: &Region,
    uuid: &[u8; 16],
) -> Result<(), AreaFailed>
    requires sound { IsSound platform.now }
    requires platform { platform.now.regions ≡ sets.old.regions }
    requires known { region_at platform.now region.now.index ≡ Some region.now }
    requires heal { CanHealIn sets.old uuid.now region.now }
    requires sized { AreSized R.Shown rig.old sets.old.modules }
    ensures gone { OnOk result (state_in sets.new ≡ without_namespace region.now uuid.now (state_in sets.old)) }
    ensures pass { IsPass (handles region.now) (IsTableOrWithout sets.old region.now uuid.now) R.Shown
        (kept_in sets.old) rig.old (kept_in sets.new) rig.new result }
{
    match sets.mark_all(rig, platform, region.index, uuid) {
        Ok(()) => sets.drop_all(rig, platform, region.index, uuid),
        Err(failed) => Err(failed),
    }
}
