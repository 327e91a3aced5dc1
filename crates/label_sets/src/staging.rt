//! The first pass of making a namespace.

ghost use Rattle.std.specs.Prelude.{◌≡◌, IsSome, OnErr, OnOk, false, true};
ghost use Rattle.region_map.specs.Platforms.{IsSound, region_at};
ghost use Rattle.label_table.specs.Tables.{state, with_namespace};
ghost use Rattle.region_labels.specs.Fates.{platform_of};
ghost use Rattle.region_labels.specs.Modules.{labels_in};
ghost use Rattle.region_labels.specs.Regions.{handles};
ghost use Rattle.module_flips.specs.Together.{StaysTogether};
ghost use Rattle.namespace_passes.specs.Staged.{IsBeforeOrWith, new_space};
ghost use Rattle.namespace_passes.specs.Staging.{AreStaged, IsStaged};
ghost use Rattle.label_sets.specs.Kept.{IsKnownFree};
ghost use Rattle.label_sets.specs.Staging.{CanStageAt};
ghost use Rattle.module_flips.specs.Passes.{AreSized, IsPass, kept_of};

use crate::free::FreeExtents;
use crate::sets::Sets;
use crate::views::place_of;
use module_flips::AreaFailed;
use namespace_passes::stage_labels;
use region_labels::{LoadedModule, RegionLabels};
use region_map::{Platform, Region};
use rig_trait::Rig;
use view_types::Namespace;

impl Sets {
    ghost use Rattle.label_sets.specs.Sets as sets;
    ghost use Rattle.label_sets.specs.Sets.{kept_in, platform_in, state_in};
    ghost use Rattle.label_sets.specs.Staging.{CanStageIn, GivesSlots, OfRegion};

    /// Puts a label of a new namespace, marked as being changed, into the module of each member of a region, by
    /// position and one flip each. By the last one the namespace stands, and is pending. It needs the platform whose
    /// state this is, `reserve`, and an offset and a length that are common free; it takes no memory. `pending` and
    /// `read_only` of `space` are not looked at. A stop at any moment leaves areas that stand for the state before, or
    /// for that with the namespace. `Err` where the rig failed.
    pub fn stage_all<R: Rig>(
        &mut self,
        rig: &mut R,
        platform: &Platform,
        region: u16,
        space: &Namespace,
    ) -> Result<(), AreaFailed>
        requires sound { IsSound platform.now }
        requires platform { platform.now.regions ≡ self.old.regions }
        requires found { IsSome (region_at (platform_in self.old) region) }
        requires stage { OfRegion self.old region (CanStageIn self.old space.now) }
        requires room { self.old.room ≡ true }
        requires sized { AreSized R.Shown rig.old self.old.modules }
        ensures staged { OfRegion self.old region (λ found. OnOk result
            (state_in self.new ≡ with_namespace found (new_space space.now) (state_in self.old))) }
        ensures slots { OfRegion self.old region (λ found. OnOk result (GivesSlots self.old self.new found)) }
        ensures labels { OfRegion self.old region (λ found. OnOk result
            (AreStaged found space.now (sets.labels_in self.new))) }
        ensures failed { OnErr result (state_in self.new ≡ state_in self.old) }
        ensures room { self.new.room ≡ false }
        ensures pass { OfRegion self.old region (λ found. IsPass (handles found)
            (IsBeforeOrWith (platform_in self.old) found (new_space space.now) (sets.labels_in self.old))
            R.Shown (kept_in self.old) rig.old (kept_in self.new) rig.new result) }
    {
        self.room = false;
        self.ready = None;
        let (Some(found), Some(place)) = (platform.region(region), place_of(&self.regions, region))
        else {
            unreachable!()
        };
        stage_in(
            rig,
            &mut self.modules,
            &mut self.regions,
            &mut self.free,
            place,
            found,
            space,
        )
    }
}

/// Stages a namespace in the region at a place, and takes its range out of the region's free space, where that is
/// known.
fn stage_in<R: Rig>(
    rig: &mut R,
    modules: &mut [LoadedModule],
    regions: &mut [RegionLabels],
    free: &mut FreeExtents,
    place: usize,
    region: &Region,
    space: &Namespace,
) -> Result<(), AreaFailed>
    requires stage { CanStageAt modules.old regions.old free.old place region.now space.now }
    requires sized { AreSized R.Shown rig.old modules.old }
    ensures staged { OnOk result (IsStaged modules.old regions.old region.now (new_space space.now) modules.new) }
    ensures labels { OnOk result (AreStaged region.now space.now (labels_in modules.new)) }
    ensures failed { OnErr result (state (platform_of regions.old) (labels_in modules.new)
        ≡ state (platform_of regions.old) (labels_in modules.old)) }
    ensures together { StaysTogether modules.old regions.old modules.new regions.new }
    ensures free { IsKnownFree modules.new regions.new free.new }
    ensures pass { IsPass (handles region.now)
        (IsBeforeOrWith (platform_of regions.old) region.now (new_space space.now) (labels_in modules.old))
        R.Shown (kept_of modules.old regions.old) rig.old (kept_of modules.new regions.new) rig.new result }
{
    match stage_labels(rig, modules, regions, region, space) {
        Ok(()) => {
            free.take(place, space.offset, space.length);
            Ok(())
        }
        Err(failed) => Err(failed),
    }
}
