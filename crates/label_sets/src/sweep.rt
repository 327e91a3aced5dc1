//! Junk and dead labels of a module are freed.

ghost use Rattle.std.specs.Prelude.{◌≡◌, ◌∷◌, [], ◌<◌, IsTrue, OnErr, OnOk, length, slice_index_or};
ghost use Rattle.label_codec.specs.ModuleLabels.{is_ready};
ghost use Rattle.label_table.specs.Tables.{state};
ghost use Rattle.region_labels.specs.declared.modules.LoadedModule.{LoadedModule};
ghost use Rattle.region_labels.specs.Modules.{labels_in};
ghost use Rattle.module_flips.specs.Flips.{IsReadyArea};
ghost use Rattle.module_flips.specs.Sweeps.{ChangesOnly};
ghost use Rattle.module_flips.specs.Passes.{AreSized, IsPass};

use crate::sets::Sets;
use module_flips::{AreaFailed, sweep_labels};
use region_labels::LoadedModule;
use region_map::Platform;
use rig_trait::Rig;

impl Sets {
    ghost use Rattle.label_codec.specs.ModuleLabels.{IsBounded};
    ghost use Rattle.label_sets.specs.Sets as sets;
    ghost use Rattle.label_sets.specs.Sets.{kept_in, platform_in, state_in};
    ghost use Rattle.std.specs.Prelude.{ℕ};
    ghost use Rattle.label_sets.specs.Sweeps.{IsFreeAsSpare, IsSweptAt};

    /// Frees the junk and the dead labels of a module whose area is Ready, by one flip, or by none where there are
    /// none. It needs the platform whose state this is, and takes no memory. A stop at any moment leaves areas that
    /// stand for the same state. `Err` where the rig failed: what is kept is as before then.
    pub fn sweep<R: Rig>(
        &mut self,
        rig: &mut R,
        platform: &Platform,
        dimm: u32,
    ) -> Result<(), AreaFailed>
        requires platform { platform.now.regions ≡ self.old.regions }
        requires ready { IsTrue (is_ready (sets.labels_in self.old dimm).kind) }
        requires sized { AreSized R.Shown rig.old self.old.modules }
        ensures state { state_in self.new ≡ state_in self.old }
        ensures swept { OnOk result (IsSweptAt self.new dimm) }
        ensures spare { OnOk result (IsFreeAsSpare self.new dimm) }
        ensures others { ChangesOnly dimm self.old.modules self.new.modules }
        ensures kept { OnErr result (self.new ≡ self.old) }
        ensures room { self.new.room ≡ self.old.room }
        ensures pass { IsPass (dimm ∷ []) (λ labels. state (platform_in self.old) labels ≡ state_in self.old)
            R.Shown (kept_in self.old) rig.old (kept_in self.new) rig.new result }
        ensures idle { IsSweptAt self.old dimm → rig.new ≡ rig.old }
    {
        let seat = seat_of(&self.modules, dimm);
        if let Err(failed) = sweep_labels(
            rig,
            &mut self.modules,
            &mut self.regions,
            seat,
            &mut self.slots,
            &mut self.lost,
        ) {
            return Err(failed);
        }
        Ok(())
    }

    /// A module with as many free slots as spare ones is swept, and no module has a label past its slots. The function
    /// does nothing: its clauses say what holds.
    pub fn sweep_law(&self)
        ensures swept { (dimm : ℕ) → IsFreeAsSpare self.now dimm → IsSweptAt self.now dimm }
        ensures bounded { IsBounded (sets.labels_in self.now) }
    {
        let _modules = &self.modules;
    }
}

/// Where the module with a device handle stands.
pub(crate) fn seat_of(modules: &[LoadedModule], dimm: u32) -> usize
    requires { IsTrue (is_ready (labels_in modules.now dimm).kind) }
    ensures within { result < length modules.now }
    ensures dimm { (d : LoadedModule) → (slice_index_or modules.now result d).dimm ≡ dimm }
    ensures ready { (d : LoadedModule) → IsReadyArea (slice_index_or modules.now result d).area }
{
    for (seat, loaded) in modules.iter().enumerate() {
        if loaded.dimm == dimm {
            return seat;
        }
    }
    unreachable!()
}
