//! The free extents of regions.

ghost use Rattle.std.specs.Prelude.{◌≡◌, ◌+◌, ◌<◌, ◌≤◌, IfOk, IfSome, IsSome, IsTrue, None, OnOk, Some};
ghost use Rattle.std.specs.Prelude.{length, map, slice_index_or};
ghost use Rattle.std.specs.List.{All};
ghost use Rattle.std.specs.Option.{option_copied, option_map};
ghost use Rattle.view_types.specs.Intervals as intervals;
ghost use Rattle.view_types.specs.Intervals.{AreMaximal, NoneFree, is_free, with_range, without_range};
ghost use Rattle.extent_alloc.specs.Free.{FreeSpace};
ghost use Rattle.region_labels.specs.Regions.{IsOver};
ghost use Rattle.label_sets.specs.Free.{ChangesKnown, GainsRange, LosesRange, space_at};
ghost use Rattle.label_sets.specs.Kept.{AllFree, IsKnownFree};
ghost use Rattle.label_sets.specs.Room.{HaveExtentRoom, without_spare};

use crate::room::reserve_extents;
use extent_alloc::{Extents, Steps};
use region_labels::{LoadedModule, RegionLabels, free_extents};
use std::alloc::{AllocError, Global};
use std::marker::{Brand, Model};
use std::sync::ledger::{Blank, Ledger};

/// The free extents of each region, or none: held labels that go give back space, and so does a namespace whose range
/// may not have been its alone or has no room here. Then they are not known, until they are built anew.
#[derive(Drop)]
pub(crate) struct FreeExtents {
    each: Option<Vec<Extents>>,
}

impl Model for FreeExtents {
    ghost use Rattle.std.specs.Prelude.{List, Option};
    ghost use Rattle.extent_alloc.specs.Free.{FreeSpace};

    ghost Value = { Option (List FreeSpace) };

    ghost use Rattle.label_sets.specs.Free.{known_spaces};

    ghost view = { known_spaces };
}

impl FreeExtents {
    /// The free extents of each region, in the order of the regions.
    pub(crate) fn known(each: Vec<Extents>) -> FreeExtents
        ensures { result ≡ Some each.items }
    {
        FreeExtents { each: Some(each) }
    }

    /// From now on they are not known.
    pub(crate) fn forget(&mut self)
        ensures { self.new ≡ None }
    {
        self.each = None;
    }

    /// Builds the free extents of all regions where they are not known. Then there is room for as many extents more in
    /// each as the region has live labels, and one.
    pub(crate) fn build(
        &mut self,
        alloc: Global,
        modules: &[LoadedModule],
        regions: &[RegionLabels],
    ) -> Result<(), AllocError>
        requires { All (IsOver modules.now) regions.now }
        ensures free { IsKnownFree modules.now regions.now self.old → IsKnownFree modules.now regions.now self.new }
        ensures room { IfSome self.old (HaveExtentRoom regions.now) → IfSome self.new (HaveExtentRoom regions.now) }
        ensures known { OnOk result (IsSome self.new) }
    {
        if self.each.is_none() {
            self.each = Some(built_in(alloc, modules, regions)?);
        }
        Ok(())
    }

    /// The free extents of the region at a place, where they are known.
    pub(crate) fn at(&self, place: usize) -> Option<&Extents>
        ensures { option_copied result ≡ space_at self.now place }
    {
        match &self.each {
            Some(each) => each.get(place),
            None => None,
        }
    }

    /// Makes room for as many extents more in each region as it has live labels, and one, where they are known.
    pub(crate) fn reserve(&mut self, regions: &[RegionLabels]) -> Result<(), AllocError>
        requires { IfSome self.old (λ spaces. length spaces ≡ length regions.now) }
        ensures same { option_map (map without_spare) self.new ≡ option_map (map without_spare) self.old }
        ensures room { OnOk result (IfSome self.new (HaveExtentRoom regions.now)) }
    {
        match &mut self.each {
            Some(each) => reserve_extents(regions, each),
            None => Ok(()),
        }
    }

    /// Takes a range out of the free extents of the region at a place, where they are known.
    pub(crate) fn take(&mut self, place: usize, start: u64, len: u64)
        requires some { 0 < len }
        requires within { IfSome self.old (λ spaces. place < length spaces) }
        requires free { IfSome self.old (λ spaces. (e : FreeSpace)
            → intervals.AllFree (is_free (slice_index_or spaces place e).extents) start len) }
        requires spare { IfSome self.old (λ spaces. (e : FreeSpace) → 0 < (slice_index_or spaces place e).spare) }
        ensures { ChangesKnown place (LosesRange start len) self.old self.new }
    {
        if let Some(each) = &mut self.each {
            take_range(&mut each[place], start, len);
        }
    }

    /// Gives a range back to the free extents of the region at a place, where they are known and have room for one
    /// more. Else they are not known from then on. It takes no memory.
    pub(crate) fn give_back(&mut self, place: usize, start: u64, len: u64)
        requires some { 0 < len }
        requires within { IfSome self.old (λ spaces. place < length spaces) }
        requires inside { IfSome self.old (λ spaces. (e : FreeSpace)
            → start + len ≤ (slice_index_or spaces place e).whole) }
        requires taken { IfSome self.old (λ spaces. (e : FreeSpace)
            → NoneFree (is_free (slice_index_or spaces place e).extents) start len) }
        ensures { ChangesKnown place (GainsRange start len) self.old self.new }
    {
        if !self.has_spare(place) {
            self.forget();
        } else if let Some(each) = &mut self.each {
            give_range(&mut each[place], start, len);
        }
    }

    /// There is room for one extent more among those of the region at a place.
    fn has_spare(&self, place: usize) -> bool
        ensures { IsTrue result → IfSome self.now (λ spaces. (e : FreeSpace)
            → 0 < (slice_index_or spaces place e).spare) }
    {
        match self.at(place) {
            Some(free) => free.spare() > 0,
            None => false,
        }
    }
}

/// The free extents of each region, with room for more.
fn built_in(
    alloc: Global,
    modules: &[LoadedModule],
    regions: &[RegionLabels],
) -> Result<Vec<Extents>, AllocError>
    requires { All (IsOver modules.now) regions.now }
    ensures free { IfOk result (λ free. AllFree modules.now regions.now free.items) }
    ensures room { IfOk result (λ free. HaveExtentRoom regions.now free.items) }
{
    let mut free = free_in(alloc, modules, regions)?;
    reserve_extents(regions, &mut free)?;
    Ok(free)
}

/// The free extents of each region.
pub(crate) fn free_in(
    alloc: Global,
    modules: &[LoadedModule],
    regions: &[RegionLabels],
) -> Result<Vec<Extents>, AllocError>
    requires { All (IsOver modules.now) regions.now }
    ensures { IfOk result (λ free. AllFree modules.now regions.now free.items) }
{
    let mut free = Vec::new(alloc);
    for kept in regions {
        let spaces = kept.namespaces(alloc, modules)?;
        free.push(free_extents(alloc, modules, regions, kept, &spaces)?)?;
    }
    Ok(free)
}

/// Takes a range out of the free space of a region.
fn take_range(free: &mut Extents, start: u64, len: u64)
    requires some { 0 < len }
    requires free { intervals.AllFree (is_free free.old.extents) start len }
    requires spare { 0 < free.old.spare }
    ensures { LosesRange start len free.old free.new }
{
    take_range_by::<Brand>(free, start, len, Blank::new(1));
}

/// The same, with a counter of steps that nobody asks for.
fn take_range_by<L: Ledger>(free: &mut Extents, start: u64, len: u64, blank: Blank)
    requires name { blank.name ≡ L.name }
    requires parts { blank.parts ≡ L.parts }
    requires one { 0 < blank.parts }
    requires some { 0 < len }
    requires free { intervals.AllFree (is_free free.old.extents) start len }
    requires spare { 0 < free.old.spare }
    ensures taken { AreMaximal free.old.whole (without_range (is_free free.old.extents) start len) free.new.extents }
    ensures whole { free.new.whole ≡ free.old.whole }
{
    free.carve(start, len, &mut Steps::<L>::new(blank));
}

/// Gives a range back to the free space of a region.
fn give_range(free: &mut Extents, start: u64, len: u64)
    requires some { 0 < len }
    requires inside { start + len ≤ free.old.whole }
    requires taken { NoneFree (is_free free.old.extents) start len }
    requires spare { 0 < free.old.spare }
    ensures { GainsRange start len free.old free.new }
{
    give_range_by::<Brand>(free, start, len, Blank::new(1));
}

/// The same, with a counter of steps that nobody asks for.
fn give_range_by<L: Ledger>(free: &mut Extents, start: u64, len: u64, blank: Blank)
    requires name { blank.name ≡ L.name }
    requires parts { blank.parts ≡ L.parts }
    requires one { 0 < blank.parts }
    requires some { 0 < len }
    requires inside { start + len ≤ free.old.whole }
    requires taken { NoneFree (is_free free.old.extents) start len }
    requires spare { 0 < free.old.spare }
    ensures released { AreMaximal free.old.whole (with_range (is_free free.old.extents) start len) free.new.extents }
    ensures whole { free.new.whole ≡ free.old.whole }
{
    free.release(start, len, &mut Steps::<L>::new(blank));
}
