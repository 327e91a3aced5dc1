//! An area that was loaded.

ghost use Rattle.std.specs.Prelude.{◌≡◌, ◌<◌, ◌≤◌, ◌==◌, ℕ, None, Some, length, slice_index_or, vec_capacity, IfOk};
ghost use Rattle.std.specs.Prelude.{if◌then◌else◌};
ghost use Rattle.std.specs.Option.{option_copied};
ghost use Rattle.index_block.specs.Current.{IsSeq};
ghost use Rattle.index_block.specs.Geometry.{FitsIn, IsGeometry, bitmap_len};
ghost use Rattle.label_area.specs.Slots.{free_bits, label_at, live_label};

use crate::blocks::{Current, place_window};
use index_block::{Geometry, Place, count_free, is_free};
use label_codec::{Label, read_label};
use std::alloc::{AllocError, Global};
use std::marker::Model;

/// A module's label storage area that is Ready, as it was loaded.
#[derive(Drop)]
pub struct Area {
    pub(crate) dimm: u32,
    pub(crate) geometry: Geometry,
    pub(crate) place: Place,
    pub(crate) seq: u32,
    /// The bitmap of the current index block.
    pub(crate) free: Vec<u8>,
    /// The live label of each slot, up to the last one that ever had one. There is room for those of all slots.
    pub(crate) labels: Vec<Option<Label>>,
}

impl Model for Area {
    ghost use Rattle.label_area.specs.LoadedAreas.{LoadedArea, loaded_code};

    ghost Value = { LoadedArea };

    ghost coded = { loaded_code };

    ghost use Rattle.label_area.specs.Kept.{IsKept, seen};

    ghost view = { seen };

    ghost invariant = { IsKept };
}

impl Area {
    ghost use Rattle.std.specs.FinMap.{get};
    ghost use Rattle.index_block.specs.Bitmap.{free_count};
    ghost use Rattle.label_area.specs.Kept.{loaded_from};
    ghost use Rattle.label_area.specs.LoadedAreas.{IsSound, is_used, size_of};

    /// What is kept of an area with these bytes and this current block.
    pub(crate) fn of(
        alloc: Global,
        dimm: u32,
        bytes: &[u8],
        current: &Current,
    ) -> Result<Area, AllocError>
        requires geometry { IsGeometry current.now.geometry }
        requires label { current.now.geometry.label ≡ 256 }
        requires fits { FitsIn (length bytes.now) current.now.geometry }
        requires seq { IsSeq current.now.seq }
        ensures area { IfOk result (λ area. area ≡ loaded_from dimm current.now bytes.now) }
        ensures sound { IfOk result IsSound }
    {
        let free = free_bits(alloc, bytes, current)?;
        let labels = live_labels(alloc, bytes, current, &free)?;
        Ok(Area {
            dimm,
            geometry: current.geometry,
            place: current.place,
            seq: current.seq,
            free,
            labels,
        })
    }

    /// The device handle of the module.
    pub fn dimm(&self) -> u32
        ensures { result ≡ self.now.dimm }
    {
        self.dimm
    }

    /// The layout of the area.
    pub fn geometry(&self) -> Geometry
        ensures geometry { result ≡ self.now.geometry }
        ensures sound { IsSound self.now }
    {
        self.geometry
    }

    /// The size of the area in bytes.
    pub fn size(&self) -> u64
        ensures { result ≡ size_of self.now }
    {
        u64::from(2 * self.geometry.block + self.geometry.slots * self.geometry.label)
    }

    /// The number of slots.
    pub fn slots(&self) -> u32
        ensures { result ≡ self.now.geometry.slots }
    {
        self.geometry.slots
    }

    /// The sequence number of the current index block: 1, 2 or 3.
    pub fn seq(&self) -> u32
        ensures { result ≡ self.now.seq }
    {
        self.seq
    }

    /// The place of the current index block.
    pub fn place(&self) -> Place
        ensures { result ≡ self.now.place }
    {
        self.place
    }

    /// The number of free slots.
    pub fn free_count(&self) -> u32
        ensures { result ≡ free_count self.now.free self.now.geometry.slots }
    {
        count_free(&self.free, self.geometry.slots)
    }

    /// Whether a slot is in use: one of the area's that is not free.
    pub fn is_used(&self, slot: u32) -> bool
        ensures { result ≡ is_used self.now slot }
    {
        slot < self.geometry.slots && !is_free(&self.free, slot)
    }

    /// The live label in a slot. `None` exactly where it has none: the slot is free, or junk, or not one of the
    /// area's.
    pub fn label(&self, slot: u32) -> Option<&Label>
        ensures { option_copied result ≡ get self.now.live slot }
    {
        self.labels.get(slot as usize)?.as_ref()
    }
}

/// The bitmap of the current block of an area.
fn free_bits(alloc: Global, area: &[u8], current: &Current) -> Result<Vec<u8>, AllocError>
    requires geometry { IsGeometry current.now.geometry }
    requires fits { FitsIn (length area.now) current.now.geometry }
    ensures bits { IfOk result (λ free. free.items ≡ free_bits current.now area.now) }
    ensures len { IfOk result (λ free. length free.items ≡ bitmap_len current.now.geometry.slots) }
{
    let window = place_window(area, current.place, &current.geometry);
    Vec::from_slice(alloc, current.geometry.bitmap(window))
}

/// The live labels of all slots, each in its place, with the room for a label in each. `free` is the bitmap of the
/// current block. Room that no label needs isn't touched.
fn live_labels(
    alloc: Global,
    area: &[u8],
    current: &Current,
    free: &[u8],
) -> Result<Vec<Option<Label>>, AllocError>
    requires label { current.now.geometry.label ≡ 256 }
    requires fits { FitsIn (length area.now) current.now.geometry }
    requires free { free.now ≡ free_bits current.now area.now }
    requires bits { length free.now ≡ bitmap_len current.now.geometry.slots }
    ensures labels { IfOk result (λ labels. (k : ℕ)
        → slice_index_or labels.items k None ≡ live_label current.now area.now k) }
    ensures room { IfOk result (λ labels. current.now.geometry.slots ≤ vec_capacity labels) }
{
    let slots = current.geometry.slots;
    let mut labels = Vec::with_capacity(alloc, slots as usize)?;
    for slot in 0..slots {
        if let Some(label) = live_label(area, slot, current, free) {
            set_label(&mut labels, slot, label);
        }
    }
    Ok(labels)
}

/// Sets the label of a slot, for which there is room. The slots behind the end of the list have none.
pub(crate) fn set_label(labels: &mut Vec<Option<Label>>, slot: u32, label: Label)
    requires { slot < vec_capacity labels.old }
    ensures labels { (k : ℕ) → slice_index_or labels.new.items k None
        ≡ (if k == slot then Some label else slice_index_or labels.old.items k None) }
    ensures room { vec_capacity labels.new ≡ vec_capacity labels.old }
{
    let place = slot as usize;
    for _at in labels.len()..place + 1 {
        labels.push_reserved(None);
    }
    labels[place] = Some(label);
}

/// The label of a slot, where the current block marks the slot in use.
fn live_label(area: &[u8], slot: u32, current: &Current, free: &[u8]) -> Option<Label>
    requires label { current.now.geometry.label ≡ 256 }
    requires fits { FitsIn (length area.now) current.now.geometry }
    requires free { free.now ≡ free_bits current.now area.now }
    requires bits { length free.now ≡ bitmap_len current.now.geometry.slots }
    requires slot { slot < current.now.geometry.slots }
    ensures { result ≡ live_label current.now area.now slot }
{
    if is_free(free, slot) {
        None
    } else {
        label_at(area, slot, &current.geometry)
    }
}

/// The label in a slot, where the slot's bytes are its label.
fn label_at(area: &[u8], slot: u32, geometry: &Geometry) -> Option<Label>
    requires label { geometry.now.label ≡ 256 }
    requires fits { FitsIn (length area.now) geometry.now }
    requires slot { slot < geometry.now.slots }
    ensures { result ≡ label_at geometry.now area.now slot }
{
    let at = (2 * geometry.block + slot * geometry.label) as usize;
    read_label(&area[at..at + geometry.label as usize], slot)
}
