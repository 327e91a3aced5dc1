//! The state is read.

ghost use Rattle.std.specs.Prelude.{◌≡◌, ◌+◌, ◌*◌, ◌≤◌, IfErr, IfOk, false, length, map};
ghost use Rattle.std.specs.List.{All};
ghost use Rattle.region_map.specs.Platforms.{IsSound};
ghost use Rattle.rig_trait.specs.Frames.{IsTold, Reads};
ghost use Rattle.region_labels.specs.Fates.{region_in};
ghost use Rattle.region_labels.specs.Modules.{dimm_of};
ghost use Rattle.region_labels.specs.Regions.{IsOver};
ghost use Rattle.module_flips.specs.Flips.{IsSizedIn};
ghost use Rattle.label_sets.specs.Kept.{HasFewMembers};
ghost use Rattle.label_sets.specs.Loads.{HasCause, IsAmong};
ghost use Rattle.module_flips.specs.Stored.{StandsIn, stored_labels};
ghost use Rattle.label_sets.specs.Sets.{labels_in};

use crate::free::{FreeExtents, free_in};
use crate::load::{SetFault, load_modules};
use crate::room::most_slots;
use crate::sets::Sets;
use region_labels::{LoadedModule, RegionLabels};
use region_map::Platform;
use rig_trait::Rig;
use std::alloc::{AllocError, Global};

/// Reads the state that the areas of a platform's modules stand for, whatever they hold. Areas of other modules are
/// left alone.
pub fn read_state<R: Rig>(alloc: Global, platform: &Platform, rig: &mut R) -> Result<Sets, SetFault>
    requires { IsSound platform.now }
    ensures stands { IsTold R.Shown rig.old → IfOk result
        (λ sets. labels_in sets ≡ stored_labels platform.now.modules (R.areas rig.old)) }
    ensures areas { IsTold R.Shown rig.old → IfOk result (λ sets. All (StandsIn (R.areas rig.old)) sets.modules) }
    ensures sized { IsTold R.Shown rig.old → IfOk result
        (λ sets. All (IsSizedIn (R.areas rig.new)) sets.modules) }
    ensures regions { IfOk result (λ sets. sets.regions ≡ platform.now.regions) }
    ensures modules { IfOk result (λ sets. map dimm_of sets.modules ≡ platform.now.modules) }
    ensures room { IfOk result (λ sets. sets.room ≡ false) }
    ensures reads_only { Reads R.Shown rig.old rig.new }
    ensures cause { HasCause R.Shown rig.old rig.new result }
    ensures among { IfErr result (IsAmong platform.now.modules) }
    ensures reads { R.reads rig.new ≤ R.reads rig.old + 2 * length platform.now.modules }
{
    let modules = load_modules(alloc, rig, platform.modules.as_slice())?;
    let regions = regions_over(alloc, &modules, platform)?;
    let free = FreeExtents::known(free_in(alloc, &modules, &regions)?);
    let most = most_slots(&modules) as usize;
    let slots = Vec::with_capacity(alloc, most)?;
    let lost = Vec::with_capacity(alloc, most)?;
    Ok(Sets::of(modules, regions, free, slots, lost))
}

/// The regions of a platform over its modules.
fn regions_over(
    alloc: Global,
    modules: &[LoadedModule],
    platform: &Platform,
) -> Result<Vec<RegionLabels>, AllocError>
    requires sound { IsSound platform.now }
    requires modules { map dimm_of modules.now ≡ platform.now.modules }
    ensures over { IfOk result (λ regions. All (IsOver modules.now) regions.items) }
    ensures regions { IfOk result (λ regions. map region_in regions.items ≡ platform.now.regions) }
    ensures few { IfOk result (λ regions. All HasFewMembers regions.items) }
{
    let mut regions = Vec::new(alloc);
    for region in platform.regions.as_slice() {
        regions.push(RegionLabels::of(alloc, modules, region)?)?;
    }
    Ok(regions)
}
