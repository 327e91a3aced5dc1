//! The commands that change areas: an arm a command.

ghost use Rattle.std.specs.Prelude.{IfErr};
ghost use Rattle.std.specs.List.{All};
ghost use Rattle.rig_trait.specs.Frames.{IsTold};
ghost use Rattle.region_map.specs.Platforms.{IsSound};
ghost use Rattle.module_flips.specs.Flips.{IsSizedIn};
ghost use Rattle.namespace_commands.specs.EachChange.{IsChangeDone};
ghost use Rattle.namespace_commands.specs.Lists.{IsStateOf};
ghost use Rattle.namespace_commands.specs.Releases.{IsAreaOf};

use crate::creation::{ChangeFault, create};
use crate::destruction::destroy;
use crate::initialising::init_labels;
use crate::releasing::release_held;
use crate::renaming::rename;
use cmd_words::Change;
use label_sets::Sets;
use region_map::Platform;
use rig_trait::Rig;
use std::alloc::Global;
use table_steps::NewNamespace;
use view_types::Reply;

/// Does a command that changes areas. `own` is the uuid of a new namespace for which the command gives none. `Area`
/// comes where the rig failed at a module of the platform, and `Memory` before anything was written.
pub fn do_change<R: Rig>(
    alloc: Global,
    rig: &mut R,
    platform: &Platform,
    sets: &mut Sets,
    change: Change,
    own: &[u8; 16],
) -> Result<Reply, ChangeFault>
    requires sound { IsSound platform.now }
    requires state { IsStateOf platform.now sets.old }
    requires sized { IsTold R.Shown rig.old → All (IsSizedIn (R.areas rig.old)) sets.old.modules }
    ensures done { IsChangeDone R.Shown platform.now change own.now sets.old rig.old sets.new rig.new result }
    ensures among { IfErr result (IsAreaOf platform.now) }
{
    match change {
        Change::InitLabels { dimm } => init_labels(alloc, rig, platform, sets, dimm),
        Change::Create {
            region,
            size,
            name,
            abstraction,
            sector,
            uuid,
        } => {
            let uuid = uuid.unwrap_or(*own);
            let asked = NewNamespace {
                region,
                size,
                name,
                abstraction,
                sector,
                uuid,
            };
            create(alloc, rig, platform, sets, &asked)
        }
        Change::Destroy { region, key } => destroy(alloc, rig, platform, sets, region, &key),
        Change::Rename { region, key, name } => {
            rename(alloc, rig, platform, sets, region, &key, &name)
        }
        Change::ReleaseHeld { dimm, uuid } => {
            release_held(alloc, rig, platform, sets, dimm, &uuid)
        }
    }
}
