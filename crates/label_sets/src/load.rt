//! The areas of all modules are loaded.

ghost use Rattle.std.specs.Prelude.{◌≡◌, ◌+◌, ◌*◌, ◌≤◌, IfErr, IfOk, length, map};
ghost use Rattle.std.specs.List.{All};
ghost use Rattle.rig_trait.specs.Frames.{IsTold, Reads};
ghost use Rattle.region_labels.specs.Modules.{dimm_of};
ghost use Rattle.module_flips.specs.Flips.{HasLabelsInUse, IsOwn};
ghost use Rattle.label_sets.specs.Loads.{HasCause, IsAt, IsAmong, area_by};
ghost use Rattle.module_flips.specs.Stored.{StandsIn};
ghost use Rattle.label_sets.specs.declared.load.SetFault.TheVariants.{Memory};

use label_area::{Area, AreaFault};
use region_labels::{LoadedModule, ModuleArea};
use rig_trait::Rig;
use std::alloc::{AllocError, AllocFailed, Global};

/// Why the state isn't read.
#[derive(Clone, Copy, Debug, PartialEq, Eq)]
pub enum SetFault {
    /// The rig failed, at the area of this module.
    Failed { dimm: u32 },
    /// Memory was refused.
    Memory,
}

impl From<AllocError> for SetFault {
    ghost from_gives = { λ _ fault. fault ≡ Memory };

    fn from(_: AllocError) -> SetFault {
        SetFault::Memory
    }
}

impl<T: Drop> From<AllocFailed<T>> for SetFault {
    ghost from_gives = { λ _ fault. fault ≡ Memory };

    fn from(_: AllocFailed<T>) -> SetFault {
        SetFault::Memory
    }
}

/// Loads the areas of these modules, in their order: one call for the size of each, and at most one that reads it.
pub(crate) fn load_modules<R: Rig>(
    alloc: Global,
    rig: &mut R,
    handles: &[u32],
) -> Result<Vec<LoadedModule>, SetFault>
    ensures stands { IsTold R.Shown rig.old → IfOk result (λ modules. All (StandsIn (R.areas rig.old)) modules.items) }
    ensures handles { IfOk result (λ modules. map dimm_of modules.items ≡ handles.now) }
    ensures own { IfOk result (λ modules. All IsOwn modules.items) }
    ensures in_use { IfOk result (λ modules. All HasLabelsInUse modules.items) }
    ensures reads_only { Reads R.Shown rig.old rig.new }
    ensures cause { HasCause R.Shown rig.old rig.new result }
    ensures among { IfErr result (IsAmong handles.now) }
    ensures reads { R.reads rig.new ≤ R.reads rig.old + 2 * length handles.now }
{
    let mut modules = Vec::with_capacity(alloc, handles.len())?;
    for dimm in handles {
        let loaded = load_module(alloc, rig, *dimm)?;
        modules.push(loaded)?;
    }
    Ok(modules)
}

pub(crate) fn load_module<R: Rig>(
    alloc: Global,
    rig: &mut R,
    dimm: u32,
) -> Result<LoadedModule, SetFault>
    ensures stands { IsTold R.Shown rig.old → IfOk result (StandsIn (R.areas rig.old)) }
    ensures dimm { IfOk result (λ loaded. loaded.dimm ≡ dimm) }
    ensures own { IfOk result IsOwn }
    ensures in_use { IfOk result HasLabelsInUse }
    ensures reads_only { Reads R.Shown rig.old rig.new }
    ensures cause { HasCause R.Shown rig.old rig.new result }
    ensures at { IfErr result (IsAt dimm) }
    ensures reads { R.reads rig.new ≤ R.reads rig.old + 2 }
{
    let loaded = Area::load(alloc, rig, dimm);
    match area_of(dimm, loaded) {
        Ok(area) => Ok(LoadedModule { dimm, area }),
        Err(fault) => Err(fault),
    }
}

/// What is kept of an area that was loaded.
fn area_of(dimm: u32, loaded: Result<Area, AreaFault>) -> Result<ModuleArea, SetFault>
    ensures area { result ≡ area_by dimm loaded }
    ensures at { IfErr result (IsAt dimm) }
{
    match loaded {
        Ok(area) => Ok(ModuleArea::Ready(area)),
        Err(AreaFault::Missing) => Ok(ModuleArea::Missing),
        Err(AreaFault::WrongSize { size }) => Ok(ModuleArea::WrongSize { size }),
        Err(AreaFault::Uninit { size }) => Ok(ModuleArea::Uninit { size }),
        Err(AreaFault::Foreign { size }) => Ok(ModuleArea::Foreign { size }),
        Err(AreaFault::Failed) => Err(SetFault::Failed { dimm }),
        Err(AreaFault::Memory) => Err(SetFault::Memory),
    }
}
