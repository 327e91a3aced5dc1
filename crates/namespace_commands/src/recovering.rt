//! The recovery of a region before a command changes a namespace of it.

ghost use Rattle.std.specs.Prelude.{◌≡◌, None, OnOk, Some};
ghost use Rattle.region_map.specs.Platforms.{IsSound, region_at};
ghost use Rattle.label_table.specs.Statuses.{RegionReady, status};
ghost use Rattle.region_labels.specs.Regions.{handles};
ghost use Rattle.recovery.specs.Recovery.{IsRecovered};
ghost use Rattle.table_steps.specs.Refusals.{unhealed_in};
ghost use Rattle.module_flips.specs.Passes.{AreSized, IsPass};
ghost use Rattle.label_sets.specs.Sets.{IsTableOf, kept_in, labels_in};

use label_sets::{AreaFailed, Sets};
use recovery::{RecoverFault, recover};
use region_map::{Platform, Region};
use rig_trait::Rig;

/// Recovers a Ready region that can be recovered. The table stays.
pub(crate) fn recover_ready<R: Rig>(
    rig: &mut R,
    platform: &Platform,
    sets: &mut Sets,
    region: &Region,
) -> Result<(), AreaFailed>
    requires sound { IsSound platform.now }
    requires platform { platform.now.regions ≡ sets.old.regions }
    requires known { region_at platform.now region.now.index ≡ Some region.now }
    requires ready { status (labels_in sets.old) region.now ≡ RegionReady }
    requires healable { unhealed_in platform.now (labels_in sets.old) region.now ≡ None }
    requires sized { AreSized R.Shown rig.old sets.old.modules }
    ensures recovered { OnOk result (IsRecovered sets.old sets.new region.now) }
    ensures room { sets.new.room ≡ sets.old.room }
    ensures pass { IsPass (handles region.now) (IsTableOf sets.old) R.Shown
        (kept_in sets.old) rig.old (kept_in sets.new) rig.new result }
{
    match recover(rig, platform, sets, region.index) {
        Ok(()) => Ok(()),
        Err(RecoverFault::Failed { dimm }) => Err(AreaFailed { dimm }),
        // The region can be recovered.
        Err(RecoverFault::Unhealed { .. }) => unreachable!(),
    }
}
