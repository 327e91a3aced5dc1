//! The writes of a flip.

ghost use Rattle.std.specs.Prelude.{◌≡◌, ◌≢◌, ℕ, ◌+◌, ◌*◌, ◌<◌, None, Some, true, false};
ghost use Rattle.std.specs.Result.{is_err};
ghost use Rattle.index_block.specs.Bitmap.{is_free_in};
ghost use Rattle.index_block.specs.Current.{IsSeq};
ghost use Rattle.index_block.specs.Geometry.{IsGeometry, place_offset, slot_offset};
ghost use Rattle.index_block.specs.Written.{block_text};
ghost use Rattle.rig_trait.specs.Areas.{size_in};
ghost use Rattle.rig_trait.specs.Frames.{FailsAt, IsTold, WriteLeaves, WritesBytes, WritesTo};
ghost use Rattle.rig_trait.specs.TwoWrites.{LeavesTwo, WritesBoth, WritesInTurn};
ghost use Rattle.label_area.specs.FlipBytes.{WritesFlipAlone};
ghost use Rattle.label_area.specs.FlipWrites.{Flips, IsNext, with_bits};
ghost use Rattle.label_area.specs.Flips.{IsSized, with_label};
ghost use Rattle.label_area.specs.Loads.{IsShown};
ghost use Rattle.label_area.specs.LoadedAreas.{IsSound};

use crate::area::Area;
use crate::blocks::BITMAP_BYTES;
use index_block::{Geometry, Place, WINDOW_BYTES, next_seq, write_block};
use label_codec::{LABEL_LEN, Label, write_label};
use rig_trait::{Failed, Rig};

/// The index block that a flip writes: its place, sequence number and free bits.
#[derive(Clone, Copy)]
pub(crate) struct Next {
    pub(crate) place: Place,
    pub(crate) seq: u32,
    pub(crate) free: [u8; BITMAP_BYTES],
}

impl Area {
    /// The index block that comes after the current one, with these free bits.
    pub(crate) fn next(&self, free: [u8; BITMAP_BYTES]) -> Next
        ensures next { IsNext self.now result }
        ensures bits { result.free ≡ free }
        ensures sound { IsSound self.now }
    {
        let place = self.place.other();
        let seq = next_seq(self.seq);
        Next { place, seq, free }
    }

    /// Writes the index block of a flip that puts no label. A slot that was free stays so.
    pub(crate) fn flip<R: Rig>(&self, rig: &mut R, next: &Next) -> Result<(), Failed>
        requires sized { IsTold R.Shown rig.old → IsSized self.now (R.areas rig.old) }
        requires next { IsNext self.now next.now }
        requires bits { (k : ℕ) → k < self.now.geometry.slots
            → is_free_in self.now.free k ≡ true → is_free_in next.now.free k ≡ true }
        ensures flips { IsTold R.Shown rig.old → IsShown self.now (R.areas rig.old)
            → Flips R.Shown rig.old rig.new self.now next.now (with_bits self.now next.now) result }
        ensures bytes { IsTold R.Shown rig.old → WritesFlipAlone R.Shown rig.old rig.new self.now None }
        ensures writes_only { WritesTo self.now.dimm R.Shown rig.old rig.new }
        ensures cause { FailsAt self.now.dimm R.Shown rig.old rig.new (is_err result) }
        ensures reads { R.reads rig.new ≡ R.reads rig.old }
    {
        let geometry = self.geometry();
        write_next(rig, self.dimm, &geometry, next)
    }

    /// Writes a label into its slot, which is free, and then the index block of the flip. Every other slot that was
    /// free stays so.
    pub(crate) fn flip_with<R: Rig>(
        &self,
        rig: &mut R,
        next: &Next,
        label: &Label,
    ) -> Result<(), Failed>
        requires sized { IsTold R.Shown rig.old → IsSized self.now (R.areas rig.old) }
        requires next { IsNext self.now next.now }
        requires slot { label.now.slot < self.now.geometry.slots }
        requires free { is_free_in self.now.free label.now.slot ≡ true }
        requires used { is_free_in next.now.free label.now.slot ≡ false }
        requires bits { (k : ℕ) → k < self.now.geometry.slots → k ≢ label.now.slot
            → is_free_in self.now.free k ≡ true → is_free_in next.now.free k ≡ true }
        ensures flips { IsTold R.Shown rig.old → IsShown self.now (R.areas rig.old)
            → Flips R.Shown rig.old rig.new self.now next.now
            (with_label label.now.slot label.now (with_bits self.now next.now)) result }
        ensures bytes { IsTold R.Shown rig.old
            → WritesFlipAlone R.Shown rig.old rig.new self.now (Some label.now.slot) }
        ensures writes_only { WritesTo self.now.dimm R.Shown rig.old rig.new }
        ensures cause { FailsAt self.now.dimm R.Shown rig.old rig.new (is_err result) }
        ensures reads { R.reads rig.new ≡ R.reads rig.old }
    {
        let geometry = self.geometry();
        let mut text = [0; LABEL_LEN];
        write_label(label, &mut text);
        write_both(rig, self.dimm, &geometry, label.slot, &text, next)
    }
}

/// Writes an index block.
fn write_next<R: Rig>(
    rig: &mut R,
    dimm: u32,
    geometry: &Geometry,
    next: &Next,
) -> Result<(), Failed>
    requires geometry { IsGeometry geometry.now }
    requires label { geometry.now.label ≡ 256 }
    requires seq { IsSeq next.now.seq }
    requires sized { IsTold R.Shown rig.old
        → size_in (R.areas rig.old) dimm ≡ Some (2 * geometry.now.block + geometry.now.slots * geometry.now.label) }
    ensures written { WritesBytes R.Shown rig.old rig.new dimm (place_offset geometry.now next.now.place)
        (block_text next.now.place next.now.seq geometry.now next.now.free) result }
    ensures stops { WriteLeaves R.Shown rig.old rig.new dimm (place_offset geometry.now next.now.place)
        (block_text next.now.place next.now.seq geometry.now next.now.free) result }
    ensures writes_only { WritesTo dimm R.Shown rig.old rig.new }
    ensures cause { FailsAt dimm R.Shown rig.old rig.new (is_err result) }
    ensures reads { R.reads rig.new ≡ R.reads rig.old }
{
    let mut block = [0; WINDOW_BYTES];
    let block = &mut block[..geometry.block as usize];
    write_block(block, next.place, next.seq, geometry, &next.free);
    rig.write(dimm, u64::from(geometry.place_offset(next.place)), block)
}

/// Writes the text of a label into its slot, and then an index block.
fn write_both<R: Rig>(
    rig: &mut R,
    dimm: u32,
    geometry: &Geometry,
    slot: u32,
    text: &[u8; LABEL_LEN],
    next: &Next,
) -> Result<(), Failed>
    requires geometry { IsGeometry geometry.now }
    requires label { geometry.now.label ≡ 256 }
    requires slot { slot < geometry.now.slots }
    requires seq { IsSeq next.now.seq }
    requires sized { IsTold R.Shown rig.old
        → size_in (R.areas rig.old) dimm ≡ Some (2 * geometry.now.block + geometry.now.slots * geometry.now.label) }
    ensures both { WritesBoth R.Shown rig.old rig.new dimm (slot_offset geometry.now slot) text.now
        (place_offset geometry.now next.now.place)
        (block_text next.now.place next.now.seq geometry.now next.now.free) result }
    ensures in_turn { WritesInTurn R.Shown rig.old rig.new dimm (slot_offset geometry.now slot) text.now
        (place_offset geometry.now next.now.place)
        (block_text next.now.place next.now.seq geometry.now next.now.free) result }
    ensures any_moment { LeavesTwo R.Shown rig.old rig.new dimm (slot_offset geometry.now slot) text.now
        (place_offset geometry.now next.now.place)
        (block_text next.now.place next.now.seq geometry.now next.now.free) }
    ensures writes_only { WritesTo dimm R.Shown rig.old rig.new }
    ensures cause { FailsAt dimm R.Shown rig.old rig.new (is_err result) }
    ensures reads { R.reads rig.new ≡ R.reads rig.old }
{
    let mut block = [0; WINDOW_BYTES];
    let block = &mut block[..geometry.block as usize];
    write_block(block, next.place, next.seq, geometry, &next.free);
    let at = u64::from(2 * geometry.block + slot * geometry.label);
    let block_at = u64::from(geometry.place_offset(next.place));
    rig_trait::write_two(rig, dimm, at, text, block_at, block)
}
