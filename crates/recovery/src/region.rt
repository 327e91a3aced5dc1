//! A region is recovered, or a module is found that has no slot for it.

ghost use Rattle.std.specs.Prelude.{◌≡◌, IfErr, IsSome, OnOk, Some};
ghost use Rattle.region_map.specs.Platforms.{IsSound, region_at};
ghost use Rattle.label_table.specs.Statuses.{RegionReady, status};
ghost use Rattle.label_table.specs.Tables.{table};
ghost use Rattle.region_labels.specs.Regions.{handles};
ghost use Rattle.label_sets.specs.Sets.{IsTableOf, kept_in, labels_in, platform_in};
ghost use Rattle.label_sets.specs.Staging.{OfRegion};
ghost use Rattle.recovery.specs.Recovery.{AreSwept, IsRecovered, WhereUnhealed, unhealed_at, unhealed_by, area_failed};
ghost use Rattle.module_flips.specs.Passes.{AreSized, IsPass};

use crate::heals::heal_pending;
use crate::sweeps::sweep_members;
use label_sets::{AreaFailed, Sets};
use region_map::{Platform, Region};
use rig_trait::Rig;

/// Why a region isn't recovered.
#[derive(Clone, Copy, Debug, PartialEq, Eq)]
pub enum RecoverFault {
    /// One of its namespaces is pending, and the module with this device handle, the first such by position, has no
    /// slot left for a new label. Nothing was written.
    Unhealed { dimm: u32 },
    /// The rig failed, at the area of this module.
    Failed { dimm: u32 },
}

/// Recovers a Ready region before a change: the junk and the dead labels of each of its modules are freed, by position
/// and at most one flip each, and then each of its pending namespaces is healed, by offset. It needs the platform
/// whose state this is, and takes no memory. Where a namespace is pending and a module has no spare slot, it writes
/// nothing and answers `Unhealed`; no other answer comes then. A stop at any moment leaves areas that stand for the
/// same table. After `Failed` what is kept is what the flips before the failure made.
pub fn recover<R: Rig>(
    rig: &mut R,
    platform: &Platform,
    sets: &mut Sets,
    region: u16,
) -> Result<(), RecoverFault>
    requires sound { IsSound platform.now }
    requires platform { platform.now.regions ≡ sets.old.regions }
    requires found { IsSome (region_at (platform_in sets.old) region) }
    requires ready { OfRegion sets.old region (λ found. status (labels_in sets.old) found ≡ RegionReady) }
    requires sized { AreSized R.Shown rig.old sets.old.modules }
    ensures recovered { OfRegion sets.old region (λ found. OnOk result (IsRecovered sets.old sets.new found)) }
    ensures swept { OfRegion sets.old region (λ found. OnOk result (AreSwept sets.new found)) }
    ensures unhealed { OfRegion sets.old region (λ found. unhealed_by result ≡ unhealed_at sets.old found) }
    ensures unwritten { IfErr result (WhereUnhealed (rig.new ≡ rig.old)) }
    ensures kept { IfErr result (WhereUnhealed (sets.new ≡ sets.old)) }
    ensures room { sets.new.room ≡ sets.old.room }
    ensures pass { OfRegion sets.old region (λ found. IsPass (handles found) (IsTableOf sets.old)
        R.Shown (kept_in sets.old) rig.old (kept_in sets.new) rig.new (area_failed result)) }
{
    if let Some(dimm) = full_module(sets, region) {
        return Err(RecoverFault::Unhealed { dimm });
    }
    match platform.region(region) {
        Some(found) => match recover_members(rig, platform, sets, found) {
            Ok(()) => {
                sets.sweep_law();
                Ok(())
            }
            Err(failed) => Err(RecoverFault::Failed { dimm: failed.dimm }),
        },
        None => unreachable!(),
    }
}

/// Where a namespace of a region is pending: the first of its modules, by position, that has no spare slot. `None`
/// where none is pending, or where each module has one.
fn full_module(sets: &Sets, region: u16) -> Option<u32>
    requires { IsSome (region_at (platform_in sets.now) region) }
    ensures { OfRegion sets.now region (λ found. result ≡ unhealed_at sets.now found) }
{
    if sets.first_pending(region).is_none() {
        return None;
    }
    match sets.first_without_spare(region, 1) {
        Some(short) => Some(short.dimm),
        None => None,
    }
}

/// Sweeps each module of a region, and then heals each of its pending namespaces, for which each module has a spare
/// slot.
fn recover_members<R: Rig>(
    rig: &mut R,
    platform: &Platform,
    sets: &mut Sets,
    found: &Region,
) -> Result<(), AreaFailed>
    requires sound { IsSound platform.now }
    requires platform { platform.now.regions ≡ sets.old.regions }
    requires found { region_at (platform_in sets.old) found.now.index ≡ Some found.now }
    requires ready { status (labels_in sets.old) found.now ≡ RegionReady }
    requires spare { unhealed_at sets.old found.now ≡ None }
    requires sized { AreSized R.Shown rig.old sets.old.modules }
    ensures recovered { OnOk result (IsRecovered sets.old sets.new found.now) }
    ensures room { sets.new.room ≡ sets.old.room }
    ensures pass { IsPass (handles found.now) (IsTableOf sets.old)
        R.Shown (kept_in sets.old) rig.old (kept_in sets.new) rig.new result }
{
    match sweep_members(rig, platform, sets, found) {
        Ok(()) => heal_pending(rig, platform, sets, found),
        Err(failed) => Err(failed),
    }
}
