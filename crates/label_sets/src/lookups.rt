//! What commands look up in the state, without a list of namespaces.

ghost use Rattle.std.specs.Prelude.{◌≡◌, ◌<◌, IfOk, Some, find};
ghost use Rattle.std.specs.Option.{option_copied, option_map};
ghost use Rattle.region_labels.specs.Holders.{IsHolder};
ghost use Rattle.region_labels.specs.Named.{named_in};
ghost use Rattle.region_labels.specs.ListedSpaces.{has_name_beside, listed_spaces, shows_pending};
ghost use Rattle.region_labels.specs.Marks.{namespace_at};
ghost use Rattle.label_sets.specs.Lookups.{FitsFirst, IsKeptIn, LacksSpare, in_region, uuid_of};
ghost use Rattle.label_sets.specs.Sets.{labels_in, platform_in};

use crate::largest::ALIGNMENT;
use crate::sets::Sets;
use crate::views::place_of;
use region_labels::{ModuleSpare, Named, RegionLabels};
use std::alloc::{AllocError, Global};
use view_types::Namespace;

impl Sets {
    /// The namespace of a region with a uuid. `None` exactly where the platform has no such region, or the region no
    /// such namespace.
    pub fn namespace(&self, region: u16, uuid: &[u8; 16]) -> Option<Namespace>
        ensures { result ≡ in_region self.now region (λ r. namespace_at (labels_in self.now) r uuid.now) }
    {
        let Some(kept) = self.kept(region) else {
            return None;
        };
        kept.namespace(&self.modules, uuid)
    }

    /// The uuid of the first pending namespace of a region, by offset and then by uuid. `None` exactly where the
    /// platform has no such region, or none of its namespaces is pending.
    pub fn first_pending(&self, region: u16) -> Option<[u8; 16]>
        ensures { result ≡ in_region self.now region
            (λ r. option_map uuid_of (find shows_pending (listed_spaces (labels_in self.now) r))) }
    {
        let Some(kept) = self.kept(region) else {
            return None;
        };
        let Some(space) = region_labels::first_pending(&self.modules, kept) else {
            return None;
        };
        Some(space.uuid)
    }

    /// The namespaces of a region with a name: how many, and the first. Names are compared up to the first zero byte of
    /// each. `None` exactly where the platform has no such region.
    pub fn namespaces_named(&self, region: u16, name: &[u8; 64]) -> Option<Named>
        ensures { result ≡ in_region self.now region (λ r. Some (named_in (labels_in self.now) r name.now)) }
    {
        let Some(kept) = self.kept(region) else {
            return None;
        };
        Some(region_labels::namespaces_named(&self.modules, kept, name))
    }

    /// The first namespace of a region with a name and another uuid than this one. `None` exactly where the platform
    /// has no such region, or the region no such namespace.
    pub fn other_named(&self, region: u16, name: &[u8; 64], uuid: &[u8; 16]) -> Option<Namespace>
        ensures { result ≡ in_region self.now region
            (λ r. find (has_name_beside name.now uuid.now) (listed_spaces (labels_in self.now) r)) }
    {
        let Some(kept) = self.kept(region) else {
            return None;
        };
        region_labels::other_named(&self.modules, kept, name, uuid)
    }

    /// The least device handle of the modules that have a live label with this uuid that is not dead. `None` exactly
    /// where no module has one.
    pub fn holder_of(&self, uuid: &[u8; 16]) -> Option<u32>
        ensures { IsHolder (platform_in self.now) (labels_in self.now) uuid.now self.now.modules result }
    {
        region_labels::holder_of(&self.modules, &self.regions, uuid)
    }

    /// The first position of a region whose module has fewer slots left for new labels than `least`. `None` exactly
    /// where the platform has no such region, or all its modules have as many.
    pub fn first_without_spare(&self, region: u16, least: u32) -> Option<ModuleSpare>
        ensures { LacksSpare self.now region least result }
    {
        let Some(kept) = self.kept(region) else {
            return None;
        };
        region_labels::first_without_spare(&self.modules, &self.regions, kept, least)
    }

    /// The least multiple of 2 MiB from which `len` offsets of a region are free. `None` exactly where the platform has
    /// no such region, or they are free from none. Where the free extents are not known it builds and keeps them.
    pub fn first_fit(
        &mut self,
        alloc: Global,
        region: u16,
        len: u64,
    ) -> Result<Option<u64>, AllocError>
        requires { 0 < len }
        ensures same { self.new ≡ self.old }
        ensures fit { IfOk result (FitsFirst self.old region len) }
    {
        let Some(place) = place_of(&self.regions, region) else {
            return Ok(None);
        };
        match self.free.build(alloc, &self.modules, &self.regions) {
            Ok(()) => (),
            Err(fault) => return Err(fault),
        }
        match self.free.at(place) {
            Some(free) => Ok(free.first_fit(len, ALIGNMENT)),
            // They are built.
            None => unreachable!(),
        }
    }

    /// What is kept of the region with an index.
    fn kept(&self, index: u16) -> Option<&RegionLabels>
        ensures { IsKeptIn self.now index (option_copied result) }
    {
        let Some(place) = place_of(&self.regions, index) else {
            return None;
        };
        Some(&self.regions[place])
    }
}
