//! The status of a region, and its free extents, without its namespaces.

ghost use Rattle.std.specs.Prelude.{◌≡◌, IfOk, Some};
ghost use Rattle.label_table.specs.Statuses.{status};
ghost use Rattle.region_labels.specs.Modules as loaded;
ghost use Rattle.region_labels.specs.Regions.{IsOver};
ghost use Rattle.region_labels.specs.Statuses.{shown_status};
ghost use Rattle.label_sets.specs.Lookups.{TellsFree, in_region};
ghost use Rattle.label_sets.specs.Sets.{labels_in};

use crate::sets::Sets;
use crate::views::place_of;
use extent_alloc::Extents;
use region_labels::{LoadedModule, RegionLabels};
use std::alloc::{AllocError, Global};
use view_types::{Extent, List, Status};

impl Sets {
    /// The status of a region. `None` exactly where the platform has no such region. It takes no memory where the
    /// region is known to be Ready.
    pub fn status(&self, alloc: Global, index: u16) -> Result<Option<Status>, AllocError>
        ensures { IfOk result (λ told. told
            ≡ in_region self.now index (λ r. Some (shown_status (status (labels_in self.now) r)))) }
    {
        let Some(place) = place_of(&self.regions, index) else {
            return Ok(None);
        };
        if let Some(ready) = self.ready {
            if ready == place {
                return Ok(Some(Status::Ready));
            }
        }
        let status = status_of(alloc, &self.modules, &self.regions[place])?;
        Ok(Some(status))
    }

    /// The status of a region, as `status` tells it. If it is Ready that is kept, for the calls behind it: the passes
    /// that may change it forget it.
    pub fn learn_status(&mut self, alloc: Global, index: u16) -> Result<Option<Status>, AllocError>
        ensures same { self.new ≡ self.old }
        ensures status { IfOk result (λ told. told
            ≡ in_region self.old index (λ r. Some (shown_status (status (labels_in self.old) r)))) }
    {
        match self.status(alloc, index) {
            Ok(Some(Status::Ready)) => {
                self.ready = place_of(&self.regions, index);
                Ok(Some(Status::Ready))
            }
            Ok(status) => Ok(status),
            Err(fault) => Err(fault),
        }
    }

    /// The free extents of each member's part of a region, in ascending order. `None` exactly where the platform has no
    /// such region. Where they are not known it builds and keeps them.
    pub fn free_extents(
        &mut self,
        alloc: Global,
        index: u16,
    ) -> Result<Option<List<Extent>>, AllocError>
        ensures same { self.new ≡ self.old }
        ensures free { IfOk result (TellsFree self.old index) }
    {
        let Some(place) = place_of(&self.regions, index) else {
            return Ok(None);
        };
        match self.free.build(alloc, &self.modules, &self.regions) {
            Ok(()) => (),
            Err(fault) => return Err(fault),
        }
        let Some(free) = self.free.at(place) else {
            // They are built.
            unreachable!()
        };
        let extents = listed(alloc, free)?;
        Ok(Some(extents))
    }
}

/// The free extents, as a list.
fn listed(alloc: Global, free: &Extents) -> Result<List<Extent>, AllocError>
    ensures { IfOk result (λ extents. extents ≡ free.now.extents) }
{
    Ok(List::from_vec(free.iter().collect(alloc)?))
}

/// The status of a region, by the list of its namespaces.
fn status_of(
    alloc: Global,
    modules: &[LoadedModule],
    kept: &RegionLabels,
) -> Result<Status, AllocError>
    requires { IsOver modules.now kept.now }
    ensures { IfOk result (λ told.
        told ≡ shown_status (status (loaded.labels_in modules.now) kept.now.region)) }
{
    let spaces = kept.namespaces(alloc, modules)?;
    Ok(kept.status(modules, &spaces))
}
