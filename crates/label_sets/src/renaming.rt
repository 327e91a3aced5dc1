//! The first flip of renaming a namespace.

ghost use Rattle.std.specs.Prelude.{◌≡◌, IsSome, OnErr, OnOk};
ghost use Rattle.region_map.specs.Platforms.{IsSound, region_at};
ghost use Rattle.region_labels.specs.Regions.{handles};
ghost use Rattle.namespace_passes.specs.Renaming.{IsBeforeOrRenamed};
ghost use Rattle.module_flips.specs.Passes.{AreSized, IsPass};

use crate::sets::Sets;
use module_flips::AreaFailed;
use namespace_passes::change_first;
use region_map::Platform;
use rig_trait::Rig;

impl Sets {
    ghost use Rattle.label_sets.specs.Sets as sets;
    ghost use Rattle.label_sets.specs.Sets.{kept_in, platform_in, state_in};
    ghost use Rattle.label_sets.specs.Staging.{OfRegion};
    ghost use Rattle.label_sets.specs.Healing.{CanHealIn};
    ghost use Rattle.label_sets.specs.Renaming.{IsRenamedIn};

    /// Gives the label of position 0 of a namespace another name, and marks it as being changed, by one flip. The
    /// region is Ready, and the namespace is not read-only. From then on it has the name, and is pending: `clear_all`
    /// ends the rename. It needs the platform whose state this is, and takes no memory. A stop at any moment leaves
    /// areas that stand for the state before, or for that with the name. `Err` where the rig failed: what is kept is as
    /// before then.
    pub fn change_first<R: Rig>(
        &mut self,
        rig: &mut R,
        platform: &Platform,
        region: u16,
        uuid: &[u8; 16],
        name: &[u8; 64],
    ) -> Result<(), AreaFailed>
        requires sound { IsSound platform.now }
        requires platform { platform.now.regions ≡ self.old.regions }
        requires found { IsSome (region_at (platform_in self.old) region) }
        requires rename { OfRegion self.old region (CanHealIn self.old uuid.now) }
        requires sized { AreSized R.Shown rig.old self.old.modules }
        ensures renamed { OfRegion self.old region (λ found.
            OnOk result (IsRenamedIn self.old self.new uuid.now name.now found)) }
        ensures kept { OnErr result (self.new ≡ self.old) }
        ensures room { self.new.room ≡ self.old.room }
        ensures pass { OfRegion self.old region (λ found. IsPass (handles found)
            (IsBeforeOrRenamed (platform_in self.old) found uuid.now name.now (sets.labels_in self.old))
            R.Shown (kept_in self.old) rig.old (kept_in self.new) rig.new result) }
    {
        self.ready = None;
        match platform.region(region) {
            Some(found) => {
                change_first(rig, &mut self.modules, &mut self.regions, found, uuid, name)
            },
            None => unreachable!(),
        }
    }
}
