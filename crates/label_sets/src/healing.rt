//! The heal of a namespace that a stopped command left pending.

ghost use Rattle.std.specs.Prelude.{◌≡◌, IsSome, OnOk, Some};
ghost use Rattle.region_map.specs.Platforms.{IsSound, region_at};
ghost use Rattle.label_table.specs.Tables.{table};
ghost use Rattle.region_labels.specs.Regions.{handles};
ghost use Rattle.module_flips.specs.Passes.{AreSized, IsPass};
ghost use Rattle.label_codec.specs.declared.label.Label.{Label};
ghost use Rattle.label_table.specs.Wholes.{labels_with, leading_label};
ghost use Rattle.namespace_passes.specs.Namespaces.{IsWellFrom};

use crate::sets::Sets;
use crate::views::place_of;
use module_flips::AreaFailed;
use namespace_passes::heal_labels;
use region_map::Platform;
use rig_trait::Rig;

impl Sets {
    ghost use Rattle.label_sets.specs.Sets as sets;
    ghost use Rattle.label_sets.specs.Sets.{IsTableOf, kept_in, platform_in, state_in};
    ghost use Rattle.label_sets.specs.Staging.{OfRegion};
    ghost use Rattle.label_sets.specs.Healing.{CanHealIn, IsHealedIn};

    /// Heals a namespace of a Ready region that is not read-only: each of its labels that is marked as being changed,
    /// or that differs from the label of position 0 in name, sector size, abstraction or length, is replaced by one
    /// flip, from position 1 on and that of position 0 last. It needs the platform whose state this is, and takes no
    /// memory. A stop at any moment leaves areas that stand for the same table. `Err` where the rig failed.
    pub fn clear_all<R: Rig>(
        &mut self,
        rig: &mut R,
        platform: &Platform,
        region: u16,
        uuid: &[u8; 16],
    ) -> Result<(), AreaFailed>
        requires sound { IsSound platform.now }
        requires platform { platform.now.regions ≡ self.old.regions }
        requires found { IsSome (region_at (platform_in self.old) region) }
        requires heal { OfRegion self.old region (CanHealIn self.old uuid.now) }
        requires sized { AreSized R.Shown rig.old self.old.modules }
        ensures healed { OfRegion self.old region (λ found. OnOk result (IsHealedIn self.old self.new uuid.now found)) }
        ensures room { self.new.room ≡ self.old.room }
        ensures pass { OfRegion self.old region (λ found. IsPass (handles found)
            (IsTableOf self.old)
            R.Shown (kept_in self.old) rig.old (kept_in self.new) rig.new result) }
        ensures idle { OfRegion self.old region (λ found. (leading : Label)
            → leading_label found (labels_with uuid.now (sets.labels_in self.old)) ≡ Some leading
            → IsWellFrom 0 (sets.labels_in self.old) found uuid.now leading → rig.new ≡ rig.old) }
    {
        // The region is Ready, and stays so.
        self.ready = place_of(&self.regions, region);
        match platform.region(region) {
            Some(found) => heal_labels(rig, &mut self.modules, &mut self.regions, found, uuid),
            None => unreachable!(),
        }
    }
}
