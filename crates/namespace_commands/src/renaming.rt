//! The command that gives a namespace another name.

ghost use Rattle.std.specs.Prelude.{◌≡◌, OnOk, Some};
ghost use Rattle.region_map.specs.Platforms.{IsSound, region_at};
ghost use Rattle.region_labels.specs.Regions.{handles};
ghost use Rattle.region_labels.specs.Statuses.{space_in};
ghost use Rattle.label_sets.specs.Healing.{CanHealIn};
ghost use Rattle.label_sets.specs.Sets.{kept_in, labels_in, state_in};
ghost use Rattle.table_steps.specs.Rename.{Renames, with_renamed};
ghost use Rattle.namespace_commands.specs.Commands.{IsChange, IsNamedIn, IsTableOrNamed};
ghost use Rattle.namespace_commands.specs.Create.{modules_of};
ghost use Rattle.namespace_commands.specs.Keys.{CanChange};
ghost use Rattle.namespace_commands.specs.Lists.{IsStateOf};
ghost use Rattle.module_flips.specs.Passes.{AreSized, IsPass};

use crate::creation::ChangeFault;
use crate::key_refusals::named_space;
use crate::recovering::recover_ready;
use crate::refusals::Unanswered;
use cmd_words::NameKey;
use label_sets::{AreaFailed, Sets};
use region_map::{Platform, Region};
use rig_trait::Rig;
use std::alloc::Global;
use view_types::{Namespace, Reply};

/// Gives the namespace of a region that fits a key a name, which may be empty: after the region is recovered, the label
/// of position 0 gets the name, and then the namespace is healed. The reply tells its uuid and the name, or why nothing
/// was done: nothing was written then. A stop at any moment leaves areas that stand for the table before the command,
/// or for that behind it.
pub fn rename<R: Rig>(
    alloc: Global,
    rig: &mut R,
    platform: &Platform,
    sets: &mut Sets,
    region: u16,
    key: &NameKey,
    name: &[u8; 64],
) -> Result<Reply, ChangeFault>
    requires sound { IsSound platform.now }
    requires state { IsStateOf platform.now sets.old }
    requires sized { AreSized R.Shown rig.old sets.old.modules }
    ensures { IsChange (modules_of platform.now region) platform.now
        (Renames platform.now (labels_in sets.old) region key.now name.now)
        R.Shown sets.old rig.old sets.new rig.new result }
{
    let space = match named_space(alloc, platform, sets, region, key, name) {
        Ok(space) => space,
        Err(Unanswered::Refused(refusal)) => return Ok(Reply::Refused(refusal)),
        Err(Unanswered::Memory) => return Err(ChangeFault::Memory),
    };
    let Some(found) = platform.region(region) else {
        // Else it is refused.
        unreachable!()
    };
    match give_name(rig, platform, sets, found, &space, name) {
        Ok(()) => {
            let uuid = space.uuid;
            Ok(Reply::Renamed { uuid, name: *name })
        }
        Err(failed) => Err(ChangeFault::Area { dimm: failed.dimm }),
    }
}

/// Gives a namespace that can be changed a name, after its region is recovered.
fn give_name<R: Rig>(
    rig: &mut R,
    platform: &Platform,
    sets: &mut Sets,
    region: &Region,
    space: &Namespace,
    name: &[u8; 64],
) -> Result<(), AreaFailed>
    requires sound { IsSound platform.now }
    requires platform { platform.now.regions ≡ sets.old.regions }
    requires known { region_at platform.now region.now.index ≡ Some region.now }
    requires change { CanChange platform.now (labels_in sets.old) space.now region.now }
    requires sized { AreSized R.Shown rig.old sets.old.modules }
    ensures renamed { OnOk result
        (state_in sets.new ≡ with_renamed region.now name.now (space_in space.now) (state_in sets.old)) }
    ensures pass { IsPass (handles region.now) (IsTableOrNamed sets.old region.now space.now.uuid name.now) R.Shown
        (kept_in sets.old) rig.old (kept_in sets.new) rig.new result }
{
    match recover_ready(rig, platform, sets, region) {
        Ok(()) => write_name(rig, platform, sets, region, &space.uuid, name),
        Err(failed) => Err(failed),
    }
}

/// Writes a name into the label of position 0 of a namespace, and then heals the namespace.
fn write_name<R: Rig>(
    rig: &mut R,
    platform: &Platform,
    sets: &mut Sets,
    region: &Region,
    uuid: &[u8; 16],
    name: &[u8; 64],
) -> Result<(), AreaFailed>
    requires sound { IsSound platform.now }
    requires platform { platform.now.regions ≡ sets.old.regions }
    requires known { region_at platform.now region.now.index ≡ Some region.now }
    requires heal { CanHealIn sets.old uuid.now region.now }
    requires sized { AreSized R.Shown rig.old sets.old.modules }
    ensures named { OnOk result (IsNamedIn sets.old sets.new region.now uuid.now name.now) }
    ensures pass { IsPass (handles region.now) (IsTableOrNamed sets.old region.now uuid.now name.now) R.Shown
        (kept_in sets.old) rig.old (kept_in sets.new) rig.new result }
{
    match sets.change_first(rig, platform, region.index, uuid, name) {
        Ok(()) => sets.clear_all(rig, platform, region.index, uuid),
        Err(failed) => Err(failed),
    }
}
