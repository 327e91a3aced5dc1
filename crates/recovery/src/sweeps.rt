//! The modules of a region are swept, one after the other.

ghost use Rattle.std.specs.Prelude.{◌≡◌, ◌<◌, OnOk, length, true};
ghost use Rattle.std.specs.List.{All};
ghost use Rattle.label_table.specs.Belonging.{member_at};
ghost use Rattle.label_table.specs.Wholes.{all_ready};
ghost use Rattle.region_labels.specs.Regions.{handles};
ghost use Rattle.label_sets.specs.Sets.{IsTableOf, kept_in, labels_in, state_in};
ghost use Rattle.label_sets.specs.Sweeps.{IsFreeAsSpare};
ghost use Rattle.module_flips.specs.Sweeps.{ChangesOnly};
ghost use Rattle.recovery.specs.Recovery.{HasSpareFree};
ghost use Rattle.module_flips.specs.Passes.{AreSized, IsPass};

use label_sets::{AreaFailed, Sets};
use region_map::{Platform, Region};
use rig_trait::Rig;

/// Frees the junk and the dead labels of each module of a region, by position, all of whose areas are Ready. The state
/// stays.
pub(crate) fn sweep_members<R: Rig>(
    rig: &mut R,
    platform: &Platform,
    sets: &mut Sets,
    found: &Region,
) -> Result<(), AreaFailed>
    requires platform { platform.now.regions ≡ sets.old.regions }
    requires ready { all_ready found.now (labels_in sets.old) ≡ true }
    requires sized { AreSized R.Shown rig.old sets.old.modules }
    ensures free { OnOk result (All (HasSpareFree sets.new found.now) sets.new.modules) }
    ensures state { state_in sets.new ≡ state_in sets.old }
    ensures room { sets.new.room ≡ sets.old.room }
    ensures pass { IsPass (handles found.now) (IsTableOf sets.old)
        R.Shown (kept_in sets.old) rig.old (kept_in sets.new) rig.new result }
{
    for position in 0..found.members.len() {
        match sweep_member(rig, platform, sets, found, position) {
            Ok(()) => (),
            Err(failed) => return Err(failed),
        }
    }
    Ok(())
}

/// Frees the junk and the dead labels of the module at a position.
fn sweep_member<R: Rig>(
    rig: &mut R,
    platform: &Platform,
    sets: &mut Sets,
    found: &Region,
    position: usize,
) -> Result<(), AreaFailed>
    requires platform { platform.now.regions ≡ sets.old.regions }
    requires within { position < length found.now.members }
    requires ready { all_ready found.now (labels_in sets.old) ≡ true }
    requires sized { AreSized R.Shown rig.old sets.old.modules }
    ensures free { OnOk result (IsFreeAsSpare sets.new (member_at found.now position).handle) }
    ensures others { ChangesOnly (member_at found.now position).handle sets.old.modules sets.new.modules }
    ensures state { state_in sets.new ≡ state_in sets.old }
    ensures room { sets.new.room ≡ sets.old.room }
    ensures pass { IsPass (handles found.now) (IsTableOf sets.old)
        R.Shown (kept_in sets.old) rig.old (kept_in sets.new) rig.new result }
{
    let dimm = found.members.as_slice()[position].handle;
    sets.sweep(rig, platform, dimm)
}
