//! The commands, as they are done on the state of a platform's modules.

ghost use Rattle.std.specs.Prelude.{◌≡◌};
ghost use Rattle.std.specs.List.{All};
ghost use Rattle.rig_trait.specs.Frames.{IsTold};
ghost use Rattle.region_map.specs.Platforms.{IsSound};
ghost use Rattle.module_flips.specs.Flips.{IsSizedIn};
ghost use Rattle.cmd_words.specs.Parts.{part_of};
ghost use Rattle.namespace_commands.specs.Lists.{IsStateOf};
ghost use Rattle.namespace_core.specs.Done.{IsDone, run_by, told_by};

use cmd_words::{Command, Part};
use label_sets::Sets;
use namespace_commands::{ChangeFault, do_change, show, translate};
use region_map::Platform;
use rig_trait::Rig;
use std::alloc::{AllocError, Global};
use uuid::Uuid;
use view_types::Reply;

/// Does a command. `own` is the uuid of a new namespace for which the command gives none.
pub(crate) fn do_command<R: Rig>(
    alloc: Global,
    rig: &mut R,
    platform: &Platform,
    sets: &mut Sets,
    command: &Command,
    own: &Uuid,
) -> Result<Reply, ChangeFault>
    requires sound { IsSound platform.now }
    requires state { IsStateOf platform.now sets.old }
    requires sized { IsTold R.Shown rig.old → All (IsSizedIn (R.areas rig.old)) sets.old.modules }
    ensures { IsDone R.Shown platform.now (part_of command.now) own.now sets.old rig.old sets.new rig.new
        (run_by result) }
{
    match command.part() {
        Part::Change(change) => do_change(alloc, rig, platform, sets, change, own.as_bytes()),
        Part::Query(query) => told(show(alloc, platform, sets, query)),
        Part::Translation(translation) => told(translate(alloc, platform, translation)),
    }
}

/// The reply to a command that changes nothing.
fn told(reply: Result<Reply, AllocError>) -> Result<Reply, ChangeFault>
    ensures { result ≡ told_by reply }
{
    match reply {
        Ok(reply) => Ok(reply),
        Err(_) => Err(ChangeFault::Memory),
    }
}
