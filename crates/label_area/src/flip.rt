//! How an area is changed: by flips.

ghost use Rattle.std.specs.Prelude.{◌≡◌, ◌*◌, ◌<◌, ◌≤◌, ◌==◌, ◌||◌, ℕ, None, Some, false, if◌then◌else◌, length};
ghost use Rattle.std.specs.Prelude.{slice_index_or, IfOk, IfSome, IsSome, IsTrue, OnErr, OnOk};
ghost use Rattle.std.specs.List.{All};
ghost use Rattle.std.specs.Result.{is_err};
ghost use Rattle.index_block.specs.Bitmap.{IsFirstFree, is_free_in};
ghost use Rattle.index_block.specs.Geometry.{bitmap_len};
ghost use Rattle.rig_trait.specs.Frames.{FailsAt, IsTold, LeavesOnly, WritesTo};
ghost use Rattle.label_codec.specs.declared.label.Label.{Label};
ghost use Rattle.label_area.specs.FlipBytes.{WritesFlipAlone};
ghost use Rattle.label_area.specs.FlipWrites.{IsNext, with_bits};
ghost use Rattle.label_area.specs.Flips.{FailedFlip, HasFree, IsSized, LeftByFlip, after_free, after_put, first_slot};
ghost use Rattle.label_area.specs.Flips.{is_among, replaced, shown_by, with_label};
ghost use Rattle.label_area.specs.Loads.{IsShown};
ghost use Rattle.label_area.specs.LoadedAreas.{IsSound, is_used};
ghost use Rattle.label_area.specs.Slots.{bitmap_bytes};

use crate::area::{Area, set_label};
use crate::blocks::BITMAP_BYTES;
use crate::flip_writes::Next;
use index_block::{first_free, set_free, set_used};
use label_codec::Label;
use rig_trait::{Failed, Rig};
use std::slice::from_ref;

impl Area {
    ghost use Rattle.std.specs.FinMap.{get};

    /// Frees slots in use, whether they have a label or are junk. It writes the index block that isn't the current
    /// one, with the next sequence number, and nothing else. A stop at any moment leaves the area as it stood before,
    /// or without the labels in these slots.
    pub fn free<R: Rig>(&mut self, rig: &mut R, slots: &[u32]) -> Result<(), Failed>
        requires used { All (λ slot. IsTrue (is_used self.old slot)) slots.now }
        requires sized { IsTold R.Shown rig.old → IsSized self.old (R.areas rig.old) }
        ensures freed { OnOk result (shown_by self.new ≡ after_free self.old slots.now) }
        ensures kept { OnErr result (self.new ≡ self.old) }
        ensures dimm { self.new.dimm ≡ self.old.dimm }
        ensures geometry { self.new.geometry ≡ self.old.geometry }
        ensures shown { IsTold R.Shown rig.old → IsShown self.old (R.areas rig.old)
            → OnOk result (IsShown self.new (R.areas rig.new)) }
        ensures any_moment { IsTold R.Shown rig.old → IsShown self.old (R.areas rig.old)
            → LeavesOnly R.Shown rig.old rig.new (LeftByFlip (R.areas rig.old) (R.said rig.old) self.old.dimm
            (after_free self.old slots.now)) }
        ensures failed { IsTold R.Shown rig.old → IsShown self.old (R.areas rig.old)
            → OnErr result (FailedFlip (R.areas rig.old) (R.areas rig.new) (R.said rig.old) self.old.dimm
            (after_free self.old slots.now)) }
        // All bytes but those of the other index block are as before, at the return and at a stop.
        ensures bytes { IsTold R.Shown rig.old → WritesFlipAlone R.Shown rig.old rig.new self.old None }
        ensures writes_only { WritesTo self.old.dimm R.Shown rig.old rig.new }
        ensures cause { FailsAt self.old.dimm R.Shown rig.old rig.new (is_err result) }
        ensures reads { R.reads rig.new ≡ R.reads rig.old }
    {
        let next = self.next_freeing(slots);
        self.flip(rig, &next)?;
        self.keep(&next, slots);
        Ok(())
    }

    /// Puts a label into the least free slot, with the number of that slot, which it answers, and frees the slot of a
    /// label that it replaces. It writes the slot and then the index block that isn't the current one, with the next
    /// sequence number, and nothing else. A stop at any moment leaves the area as it stood before, or with the label
    /// and without the one that it replaces.
    pub fn put<R: Rig>(
        &mut self,
        rig: &mut R,
        label: &Label,
        replaces: Option<u32>,
    ) -> Result<u32, Failed>
        requires free { HasFree self.old }
        requires replaces { IfSome replaces (λ slot. IsSome (get self.old.live slot)) }
        requires sized { IsTold R.Shown rig.old → IsSized self.old (R.areas rig.old) }
        ensures slot { IfOk result (λ slot. slot ≡ first_slot self.old) }
        ensures first { IsFirstFree self.old.free self.old.geometry.slots (first_slot self.old) }
        ensures was_free { get self.old.live (first_slot self.old) ≡ None }
        ensures put { OnOk result (shown_by self.new ≡ after_put self.old label.now replaces) }
        ensures kept { OnErr result (self.new ≡ self.old) }
        ensures dimm { self.new.dimm ≡ self.old.dimm }
        ensures geometry { self.new.geometry ≡ self.old.geometry }
        ensures shown { IsTold R.Shown rig.old → IsShown self.old (R.areas rig.old)
            → OnOk result (IsShown self.new (R.areas rig.new)) }
        ensures any_moment { IsTold R.Shown rig.old → IsShown self.old (R.areas rig.old)
            → LeavesOnly R.Shown rig.old rig.new (LeftByFlip (R.areas rig.old) (R.said rig.old) self.old.dimm
            (after_put self.old label.now replaces)) }
        ensures failed { IsTold R.Shown rig.old → IsShown self.old (R.areas rig.old)
            → OnErr result (FailedFlip (R.areas rig.old) (R.areas rig.new) (R.said rig.old) self.old.dimm
            (after_put self.old label.now replaces)) }
        // All bytes but those of the other index block and of the slot are as before, at the return and at a stop.
        ensures bytes { IsTold R.Shown rig.old
            → WritesFlipAlone R.Shown rig.old rig.new self.old (Some (first_slot self.old)) }
        ensures writes_only { WritesTo self.old.dimm R.Shown rig.old rig.new }
        ensures cause { FailsAt self.old.dimm R.Shown rig.old rig.new (is_err result) }
        ensures reads { R.reads rig.new ≡ R.reads rig.old }
    {
        let slot = self.first_slot();
        let label = Label { slot, ..*label };
        let freed = replaced(&replaces);
        let next = self.next_putting(slot, freed);
        self.flip_with(rig, &next, &label)?;
        self.keep(&next, freed);
        self.keep_label(slot, label);
        Ok(slot)
    }

    /// The least free slot.
    fn first_slot(&self) -> u32
        requires { HasFree self.now }
        ensures is { result ≡ first_slot self.now }
        ensures first { IsFirstFree self.now.free self.now.geometry.slots result }
        ensures unused { get self.now.live (first_slot self.now) ≡ None }
        ensures sound { IsSound self.now }
    {
        match first_free(&self.free, self.geometry.slots) {
            Some(slot) => slot,
            // One of the slots is free.
            None => unreachable!(),
        }
    }

    /// The index block of a flip that frees slots.
    fn next_freeing(&self, slots: &[u32]) -> Next
        requires { All (λ slot. slot < self.now.geometry.slots) slots.now }
        ensures next { IsNext self.now result }
        ensures bits { (k : ℕ) → k < self.now.geometry.slots
            → is_free_in result.free k ≡ (is_among slots.now k || is_free_in self.now.free k) }
        ensures after { with_bits self.now result ≡ after_free self.now slots.now }
    {
        let free = freed_bits(&self.free, self.geometry.slots, slots);
        self.next(free)
    }

    /// The index block of a flip that frees slots and puts a label into another one.
    fn next_putting(&self, slot: u32, freed: &[u32]) -> Next
        requires slot { slot < self.now.geometry.slots }
        requires freed { All (λ slot. slot < self.now.geometry.slots) freed.now }
        ensures next { IsNext self.now result }
        ensures bits { (k : ℕ) → k < self.now.geometry.slots → is_free_in result.free k
            ≡ (if k == slot then false else (is_among freed.now k || is_free_in self.now.free k)) }
        ensures after { (label : Label) → with_label slot label (with_bits self.now result)
            ≡ with_label slot label (after_free self.now freed.now) }
    {
        let mut free = freed_bits(&self.free, self.geometry.slots, freed);
        set_used(&mut free, slot);
        self.next(free)
    }

    /// Keeps the label of a slot in use.
    fn keep_label(&mut self, slot: u32, label: Label)
        requires { IsTrue (is_used self.old slot) }
        ensures rest { self.new ≡ record self.old { live = self.new.live } }
        ensures live { (k : ℕ) → get self.new.live k ≡ (if k == slot then Some label else get self.old.live k) }
    {
        set_label(&mut self.labels, slot, label);
    }

    /// Keeps what a flip that freed slots made of the area.
    fn keep(&mut self, next: &Next, freed: &[u32])
        requires freed { All (λ slot. slot < self.old.geometry.slots) freed.now }
        requires next { IsNext self.old next.now }
        requires bits { (k : ℕ) → k < self.old.geometry.slots → is_among freed.now k ≡ false
            → is_free_in self.old.free k ≡ false → is_free_in next.now.free k ≡ false }
        ensures rest { self.new ≡ record self.old {
          place = next.now.place;
          seq = next.now.seq;
          free = self.new.free;
          live = self.new.live;
        } }
        ensures bits { (k : ℕ) → k < self.old.geometry.slots
            → is_free_in self.new.free k ≡ is_free_in next.now.free k }
        ensures live { (k : ℕ) → get self.new.live k ≡ (if is_among freed.now k then None else get self.old.live k) }
    {
        let len = self.free.len();
        self.free.copy_from_slice(&next.free[..len]);
        clear(&mut self.labels, freed);
        self.place = next.place;
        self.seq = next.seq;
    }
}

/// A bitmap with these slots free as well.
fn freed_bits(free: &[u8], slots: u32, freed: &[u32]) -> [u8; BITMAP_BYTES]
    requires bits { length free.now ≡ bitmap_len slots }
    requires most { slots ≤ 8 * bitmap_bytes }
    requires freed { All (λ slot. slot < slots) freed.now }
    ensures { (k : ℕ) → k < slots → is_free_in result k ≡ (is_among freed.now k || is_free_in free.now k) }
{
    let mut bits = [0; BITMAP_BYTES];
    bits[..free.len()].copy_from_slice(free);
    for slot in freed {
        set_free(&mut bits, *slot);
    }
    bits
}

/// The slot of a label that is replaced.
fn replaced(replaces: &Option<u32>) -> &[u32]
    ensures { result.now ≡ replaced replaces.now }
{
    match replaces {
        None => &[],
        Some(slot) => from_ref(slot),
    }
}

/// Takes the labels of some slots away. The slots behind the end of the list have none.
fn clear(labels: &mut [Option<Label>], freed: &[u32])
    ensures labels { (k : ℕ)
        → slice_index_or labels.new k None
        ≡ (if is_among freed.now k then None else slice_index_or labels.old k None) }
    ensures len { length labels.new ≡ length labels.old }
{
    for slot in freed {
        clear_slot(labels, *slot);
    }
}

/// Takes the label of a slot away, where the list reaches so far.
fn clear_slot(labels: &mut [Option<Label>], slot: u32)
    ensures labels { (k : ℕ)
        → slice_index_or labels.new k None ≡ (if k == slot then None else slice_index_or labels.old k None) }
    ensures len { length labels.new ≡ length labels.old }
{
    let place = slot as usize;
    if place < labels.len() {
        labels[place] = None;
    }
}
