//! The held labels with a uuid of a module are given up.

ghost use Rattle.std.specs.Prelude.{◌≡◌, ◌∷◌, [], IfOk, OnErr, OnOk, false};
ghost use Rattle.label_codec.specs.ModuleLabels.{has};
ghost use Rattle.module_flips.specs.Releases.{IsBeforeOrReleased, released_state};
ghost use Rattle.module_flips.specs.Sweeps.{ChangesOnly};
ghost use Rattle.module_flips.specs.Passes.{AreSized, IsPass};

use crate::sets::Sets;
use crate::sweep::seat_of;
use module_flips::{AreaFailed, release_labels};
use region_map::Platform;
use rig_trait::Rig;

impl Sets {
    ghost use Rattle.label_sets.specs.Releases.{CanReleaseIn};
    ghost use Rattle.label_sets.specs.Sets as sets;
    ghost use Rattle.label_sets.specs.Sets.{kept_in, platform_in, state_in};
    ghost use Rattle.label_sets.specs.Sweeps.{IsFreeAsSpare, IsSweptAt};

    /// Gives up the held labels with a uuid of a module whose area is Ready, by one flip, and answers how many they
    /// are. The module holds one at least. Its junk and its dead labels go by the same flip; stale labels that other
    /// modules of a region held may be dead afterwards. It takes no memory. A stop at any moment leaves areas that
    /// stand for the state before, or for that without these labels. `Err` where the rig failed: what is kept is as
    /// before then.
    pub fn release<R: Rig>(
        &mut self,
        rig: &mut R,
        platform: &Platform,
        dimm: u32,
        uuid: &[u8; 16],
    ) -> Result<u32, AreaFailed>
        requires platform { platform.now.regions ≡ self.old.regions }
        requires release { CanReleaseIn self.old dimm uuid.now }
        requires sized { AreSized R.Shown rig.old self.old.modules }
        ensures count { IfOk result (λ count. count ≡ (state_in self.old).table.held dimm (has uuid.now)) }
        ensures released { OnOk result
            (state_in self.new ≡ released_state (platform_in self.old) dimm uuid.now (state_in self.old)) }
        ensures swept { OnOk result (IsSweptAt self.new dimm) }
        ensures spare { OnOk result (IsFreeAsSpare self.new dimm) }
        ensures others { ChangesOnly dimm self.old.modules self.new.modules }
        ensures kept { OnErr result (self.new ≡ self.old) }
        ensures room { OnOk result (self.new.room ≡ false) }
        ensures pass { IsPass (dimm ∷ []) (IsBeforeOrReleased (platform_in self.old) dimm uuid.now (sets.labels_in self.old))
            R.Shown (kept_in self.old) rig.old (kept_in self.new) rig.new result }
    {
        let seat = seat_of(&self.modules, dimm);
        match release_labels(
            rig,
            &mut self.modules,
            &mut self.regions,
            seat,
            uuid,
            &mut self.slots,
            &mut self.lost,
        ) {
            Ok(count) => {
                self.free.forget();
                self.ready = None;
                self.room = false;
                Ok(count)
            }
            Err(failed) => Err(failed),
        }
    }
}
