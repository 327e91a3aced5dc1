//! The second pass of destroying a namespace.

ghost use Rattle.std.specs.Prelude.{◌≡◌, ◌<◌, IfSome, IsSome, OnOk, false, length};
ghost use Rattle.region_map.specs.Platforms.{IsSound, region_at};
ghost use Rattle.region_labels.specs.Fates.{platform_of};
ghost use Rattle.region_labels.specs.Modules.{labels_in};
ghost use Rattle.region_labels.specs.Regions.{handles};
ghost use Rattle.module_flips.specs.Together.{IsTogether, StaysTogether};
ghost use Rattle.namespace_passes.specs.Dropping.{IsBeforeOrWithout, IsDropped};
ghost use Rattle.label_sets.specs.Dropping.{CanDropAt, HasAloneAt};
ghost use Rattle.label_sets.specs.Kept.{IsKnownFree, IsKnownReady};
ghost use Rattle.module_flips.specs.Passes.{AreSized, IsPass, kept_of};

use crate::free::FreeExtents;
use crate::sets::Sets;
use crate::views::place_of;
use module_flips::AreaFailed;
use namespace_passes::drop_labels;
use region_labels::{LoadedModule, RegionLabels, lone_range};
use region_map::{Platform, Region};
use rig_trait::Rig;
use view_types::Extent;

impl Sets {
    ghost use Rattle.label_sets.specs.Sets as sets;
    ghost use Rattle.label_sets.specs.Sets.{kept_in, platform_in};
    ghost use Rattle.label_sets.specs.Staging.{OfRegion};
    ghost use Rattle.label_sets.specs.Dropping.{CanDropIn, GainsSlots, HasNoneIn, IsDroppedIn};

    /// Frees the labels of a namespace, all of which are marked as being changed and none of which is read-only, by
    /// position and one flip each. By the first flip the namespace is gone; by the last no module of the region has a
    /// label with its uuid, and each has a free slot more. It needs the platform whose state this is, and takes no
    /// memory. A stop at any moment leaves areas that stand for the state before, or for that without the namespace.
    /// `Err` where the rig failed: what is kept is then what the flips before the failure made.
    pub fn drop_all<R: Rig>(
        &mut self,
        rig: &mut R,
        platform: &Platform,
        region: u16,
        uuid: &[u8; 16],
    ) -> Result<(), AreaFailed>
        requires sound { IsSound platform.now }
        requires platform { platform.now.regions ≡ self.old.regions }
        requires found { IsSome (region_at (platform_in self.old) region) }
        requires drop { OfRegion self.old region (CanDropIn self.old uuid.now) }
        requires sized { AreSized R.Shown rig.old self.old.modules }
        ensures dropped { OfRegion self.old region (λ found.
            OnOk result (IsDroppedIn self.old self.new uuid.now found)) }
        ensures none { OfRegion self.old region (λ found. OnOk result (HasNoneIn self.new uuid.now found)) }
        ensures slots { OfRegion self.old region (λ found. OnOk result (GainsSlots self.old self.new found)) }
        ensures room { self.new.room ≡ false }
        ensures pass { OfRegion self.old region (λ found. IsPass (handles found)
            (IsBeforeOrWithout (platform_in self.old) found uuid.now (sets.labels_in self.old))
            R.Shown (kept_in self.old) rig.old (kept_in self.new) rig.new result) }
    {
        self.room = false;
        let (Some(found), Some(place)) = (platform.region(region), place_of(&self.regions, region))
        else {
            unreachable!()
        };
        drop_in(
            rig,
            &mut self.modules,
            &mut self.regions,
            &mut self.free,
            self.ready,
            place,
            found,
            uuid,
        )
    }
}

/// Drops a namespace of the region at a place, and gives its range back to the region's free space, where it is known
/// to have had that alone. Else the free space is not known from then on.
fn drop_in<R: Rig>(
    rig: &mut R,
    modules: &mut [LoadedModule],
    regions: &mut [RegionLabels],
    free: &mut FreeExtents,
    ready: Option<usize>,
    place: usize,
    region: &Region,
    uuid: &[u8; 16],
) -> Result<(), AreaFailed>
    requires drop { CanDropAt modules.old regions.old free.old ready place region.now uuid.now }
    requires sized { AreSized R.Shown rig.old modules.old }
    ensures dropped { OnOk result (IsDropped modules.old regions.old region.now uuid.now modules.new) }
    ensures together { StaysTogether modules.old regions.old modules.new regions.new }
    ensures free { IsKnownFree modules.new regions.new free.new }
    ensures pass { IsPass (handles region.now)
        (IsBeforeOrWithout (platform_of regions.old) region.now uuid.now (labels_in modules.old))
        R.Shown (kept_of modules.old regions.old) rig.old (kept_of modules.new regions.new) rig.new result }
{
    let range = own_range(modules, regions, ready, place, uuid);
    match drop_labels(rig, modules, regions, region, uuid) {
        Ok(()) => {
            match range {
                Some(range) => free.give_back(place, range.start, range.len),
                None => free.forget(),
            }
            Ok(())
        }
        Err(failed) => {
            free.forget();
            Err(failed)
        }
    }
}

/// The range of a namespace of the region at a place, where the region is known to be Ready, and no held label reaches
/// into that range.
fn own_range(
    modules: &[LoadedModule],
    regions: &[RegionLabels],
    ready: Option<usize>,
    place: usize,
    uuid: &[u8; 16],
) -> Option<Extent>
    requires together { IsTogether modules.now regions.now }
    requires ready { IsKnownReady modules.now regions.now ready }
    requires within { place < length regions.now }
    ensures { IfSome result (HasAloneAt modules.now regions.now place uuid.now) }
{
    if ready? != place {
        return None;
    }
    lone_range(modules, regions, &regions[place], uuid)
}
