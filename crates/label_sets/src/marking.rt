//! The first pass of destroying a namespace.

ghost use Rattle.std.specs.Prelude.{◌≡◌, IsSome, OnOk};
ghost use Rattle.region_map.specs.Platforms.{IsSound, region_at};
ghost use Rattle.label_table.specs.Tables.{table};
ghost use Rattle.region_labels.specs.Regions.{handles};
ghost use Rattle.module_flips.specs.Passes.{AreSized, IsPass};
ghost use Rattle.namespace_passes.specs.Marking.{AreUpdating};

use crate::sets::Sets;
use crate::views::place_of;
use module_flips::AreaFailed;
use namespace_passes::mark_labels;
use region_map::Platform;
use rig_trait::Rig;

impl Sets {
    ghost use Rattle.label_sets.specs.Sets as sets;
    ghost use Rattle.label_sets.specs.Sets.{IsTableOf, kept_in, platform_in, state_in};
    ghost use Rattle.label_sets.specs.Staging.{OfRegion};
    ghost use Rattle.label_sets.specs.Healing.{CanHealIn};
    ghost use Rattle.label_sets.specs.Marking.{IsMarkedIn};

    /// Marks each label of a namespace of a Ready region that is not read-only as being changed, by position and by one
    /// flip each, or by none where it is already. It needs the platform whose state this is, and takes no memory. A
    /// stop at any moment leaves areas that stand for the same table. `Err` where the rig failed: what is kept is then
    /// what the flips before the failure made.
    pub fn mark_all<R: Rig>(
        &mut self,
        rig: &mut R,
        platform: &Platform,
        region: u16,
        uuid: &[u8; 16],
    ) -> Result<(), AreaFailed>
        requires sound { IsSound platform.now }
        requires platform { platform.now.regions ≡ self.old.regions }
        requires found { IsSome (region_at (platform_in self.old) region) }
        requires mark { OfRegion self.old region (CanHealIn self.old uuid.now) }
        requires sized { AreSized R.Shown rig.old self.old.modules }
        ensures marked { OfRegion self.old region (λ found. OnOk result (IsMarkedIn self.old self.new uuid.now found)) }
        ensures room { self.new.room ≡ self.old.room }
        ensures pass { OfRegion self.old region (λ found. IsPass (handles found)
            (IsTableOf self.old)
            R.Shown (kept_in self.old) rig.old (kept_in self.new) rig.new result) }
        ensures idle { OfRegion self.old region (λ found.
            AreUpdating (sets.labels_in self.old) found uuid.now → rig.new ≡ rig.old) }
    {
        // The region is Ready, and stays so.
        self.ready = place_of(&self.regions, region);
        match platform.region(region) {
            Some(found) => mark_labels(rig, &mut self.modules, &mut self.regions, found, uuid),
            None => unreachable!(),
        }
    }
}
