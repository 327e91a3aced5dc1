//! The command that gives up held labels.

ghost use Rattle.std.specs.Prelude.{◌∷◌, IfErr, []};
ghost use Rattle.region_map.specs.Platforms.{IsSound};
ghost use Rattle.label_sets.specs.Sets.{labels_in};
ghost use Rattle.table_steps.specs.Release.{Releases};
ghost use Rattle.namespace_commands.specs.Commands.{IsChange};
ghost use Rattle.namespace_commands.specs.Lists.{IsStateOf};
ghost use Rattle.namespace_commands.specs.Releases.{IsAreaOf};
ghost use Rattle.module_flips.specs.Passes.{AreSized};

use crate::creation::ChangeFault;
use crate::release_refusals::release_refusal;
use label_sets::Sets;
use region_map::Platform;
use rig_trait::Rig;
use std::alloc::{AllocError, Global};
use view_types::Reply;

/// Gives up the held labels with a uuid of the module with a device handle: one flip of its area frees their slots, and
/// those of junk and dead labels. The reply tells how many they were, or why nothing was done: nothing was written
/// then. A stop at any moment leaves areas that stand for the table before the command, or for that behind it. `Area`
/// comes where the rig failed at this module, one of the platform's, and `Memory` before anything was written.
pub fn release_held<R: Rig>(
    alloc: Global,
    rig: &mut R,
    platform: &Platform,
    sets: &mut Sets,
    dimm: u32,
    uuid: &[u8; 16],
) -> Result<Reply, ChangeFault>
    requires sound { IsSound platform.now }
    requires state { IsStateOf platform.now sets.old }
    requires sized { AreSized R.Shown rig.old sets.old.modules }
    ensures change { IsChange (dimm ∷ []) platform.now (Releases platform.now (labels_in sets.old) dimm uuid.now)
        R.Shown sets.old rig.old sets.new rig.new result }
    ensures among { IfErr result (IsAreaOf platform.now) }
{
    match release_refusal(alloc, platform, sets, dimm, uuid) {
        Ok(None) => (),
        Ok(Some(refusal)) => return Ok(Reply::Refused(refusal)),
        Err(AllocError) => return Err(ChangeFault::Memory),
    }
    match sets.release(rig, platform, dimm, uuid) {
        Ok(count) => Ok(Reply::Released { count }),
        Err(failed) => Err(ChangeFault::Area { dimm: failed.dimm }),
    }
}
