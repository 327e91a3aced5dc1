//! What is shown of regions and modules.

ghost use Rattle.std.specs.Prelude.{◌≡◌, ◌<◌, IfOk, find, is_some, length, map, slice_index_or};
ghost use Rattle.std.specs.Option.{option_copied};
ghost use Rattle.label_codec.specs.ModuleLabels.{is_ready};
ghost use Rattle.region_map.specs.declared.platform.Region.{Region};
ghost use Rattle.region_labels.specs.Fates.{region_in};
ghost use Rattle.label_table.specs.Namespaces.{namespaces};
ghost use Rattle.label_table.specs.Statuses.{RegionStatus};
ghost use Rattle.region_labels.specs.Modules.{is_of};
ghost use Rattle.region_labels.specs.Statuses.{shown_status, space_in};
ghost use Rattle.label_sets.specs.Sets.{labels_in, platform_in};
ghost use Rattle.label_sets.specs.Views.{IsModuleView, IsPlaceOf, IsRegionView, ShowsFree, ViewsModule, ViewsRegion};
ghost use Rattle.label_sets.specs.Views.{area_state, spare_at, where_ready};

use crate::sets::Sets;
use extent_alloc::Extents;
use label_codec::AreaKind;
use region_labels::{LoadedModule, RegionLabels, free_extents, held_labels, spare, unready_state};
use std::alloc::{AllocError, Global};
use view_types::{AreaState, Extent, List, ModuleView, Namespace, RegionView, Status};

impl Sets {
    /// The region with an index. `None` exactly where the platform has none.
    pub fn region_view(&self, alloc: Global, index: u16) -> Result<Option<RegionView>, AllocError>
        ensures { IfOk result (ViewsRegion self.now index) }
    {
        match place_of(&self.regions, index) {
            Some(place) => Ok(Some(self.view_at(alloc, place)?)),
            None => Ok(None),
        }
    }

    /// The region at a place among the regions.
    pub(crate) fn view_at(&self, alloc: Global, place: usize) -> Result<RegionView, AllocError>
        requires { place < length self.now.regions }
        ensures { (d : Region) → IfOk result (IsRegionView (platform_in self.now) (labels_in self.now)
            (slice_index_or self.now.regions place d)) }
    {
        let kept = &self.regions[place];
        let spaces = kept.namespaces(alloc, &self.modules)?;
        let status = kept.status(&self.modules, &spaces);
        let free = self.free_at(alloc, place, status, &spaces)?;
        Ok(RegionView {
            index: kept.region.index,
            spa: kept.region.spa,
            length: kept.region.length,
            ways: kept.region.members.len() as u16,
            cookie: kept.region.cookie,
            status,
            namespaces: List::from_vec(spaces),
            free,
        })
    }

    /// The free extents of the region at a place, which has this status and these namespaces, as they are shown. Where
    /// they are not known they are built for this call alone.
    fn free_at(
        &self,
        alloc: Global,
        place: usize,
        status: Status,
        spaces: &[Namespace],
    ) -> Result<List<Extent>, AllocError>
        requires place { place < length self.now.regions }
        requires spaces { (d : Region) → map space_in spaces.now
            ≡ namespaces (labels_in self.now) (slice_index_or self.now.regions place d) }
        ensures { (d : Region) (told : RegionStatus) → status ≡ shown_status told
            → IfOk result (ShowsFree (platform_in self.now) (labels_in self.now)
            (slice_index_or self.now.regions place d) told) }
    {
        if let Some(free) = self.free.at(place) {
            return listed_free(alloc, status, free);
        }
        let kept = &self.regions[place];
        let free = free_extents(alloc, &self.modules, &self.regions, kept, spaces)?;
        listed_free(alloc, status, &free)
    }

    /// The module with a device handle. `None` exactly where the platform has none.
    pub fn module_view(&self, alloc: Global, dimm: u32) -> Result<Option<ModuleView>, AllocError>
        ensures { IfOk result (ViewsModule self.now dimm) }
    {
        match self.module_of(dimm) {
            Some(loaded) => Ok(Some(self.view_of(alloc, loaded)?)),
            None => Ok(None),
        }
    }

    /// A module as it was loaded.
    pub(crate) fn view_of(
        &self,
        alloc: Global,
        loaded: &LoadedModule,
    ) -> Result<ModuleView, AllocError>
        ensures { IfOk result (IsModuleView (platform_in self.now) (labels_in self.now) loaded.now) }
    {
        let held = held_labels(alloc, &self.modules, &self.regions, loaded)?;
        Ok(ModuleView {
            dimm: loaded.dimm,
            state: self.state_of(loaded),
            held: List::from_vec(held),
        })
    }

    /// How many slots of a module are left for new labels. `None` exactly where the platform has no such module, or its
    /// area is not Ready. It takes no memory.
    pub fn spare(&self, dimm: u32) -> Option<u32>
        ensures { result ≡ spare_at self.now dimm }
    {
        let Some(loaded) = self.module_of(dimm) else {
            return None;
        };
        if !loaded.kind().is_ready() {
            return None;
        }
        Some(spare(&self.modules, &self.regions, loaded))
    }

    /// Whether the area of a module is Ready. It is not where the platform has no such module.
    pub fn is_ready(&self, dimm: u32) -> bool
        ensures { result ≡ is_ready (labels_in self.now dimm).kind }
    {
        match self.module_of(dimm) {
            Some(loaded) => loaded.kind().is_ready(),
            None => false,
        }
    }

    /// Whether the platform has a module with a device handle.
    pub fn has_module(&self, dimm: u32) -> bool
        ensures { result ≡ is_some (find (is_of dimm) self.now.modules) }
    {
        match self.module_of(dimm) {
            Some(_) => true,
            None => false,
        }
    }

    fn module_of(&self, dimm: u32) -> Option<&LoadedModule>
        ensures { option_copied result ≡ find (is_of dimm) self.now.modules }
    {
        self.modules.iter().find(|loaded| loaded.dimm == dimm)
    }

    /// The state of a module's area.
    pub(crate) fn state_of(&self, loaded: &LoadedModule) -> AreaState
        ensures { result ≡ area_state (platform_in self.now) (labels_in self.now) loaded.now }
    {
        match loaded.kind() {
            AreaKind::Ready => AreaState::Ready {
                slots: loaded.slots(),
                spare: spare(&self.modules, &self.regions, loaded),
            },
            kind => unready_state(kind),
        }
    }
}

/// Where the region with an index stands among the regions.
pub(crate) fn place_of(regions: &[RegionLabels], index: u16) -> Option<usize>
    ensures { IsPlaceOf (map region_in regions.now) index result }
{
    for (place, kept) in regions.iter().enumerate() {
        if kept.region.index == index {
            return Some(place);
        }
    }
    None
}

/// The free extents of a region with a status: those of a Ready region alone.
fn listed_free(alloc: Global, status: Status, free: &Extents) -> Result<List<Extent>, AllocError>
    ensures { IfOk result (λ extents. extents ≡ where_ready status free.now.extents) }
{
    match status {
        Status::Ready => Ok(List::from_vec(free.iter().collect(alloc)?)),
        Status::Unusable(_) => Ok(List::new(alloc)),
        Status::Area { .. } => Ok(List::new(alloc)),
        Status::Clash { .. } => Ok(List::new(alloc)),
    }
}
