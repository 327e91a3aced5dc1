//! Index blocks as they are written.

ghost use Rattle.std.specs.Prelude.{◌≡◌, ℕ, ◌*◌, ◌≤◌, ◌<◌, false, length};
ghost use Rattle.index_block.specs.Geometry.{IsGeometry};
ghost use Rattle.index_block.specs.Bitmap.{is_free_in};
ghost use Rattle.index_block.specs.Blocks.{kind_of, free_map};
ghost use Rattle.index_block.specs.Current.{IsSeq};
ghost use Rattle.index_block.specs.Written.{fields_text, map_text, block_text};

use crate::blocks::{
    BLOCK_CHECKSUM_AT, BlockKind, LABEL_OFFSET_AT, LABEL_SIZE_AT, MAJOR_AT, MINOR_AT, MY_OFFSET_AT,
    MY_SIZE_AT, OTHER_OFFSET_AT, SEQ_AT, SIGNATURE, SLOTS_AT, label_size, minor,
};
use crate::geometry::{BITMAP_AT, Geometry, Place};
use byte_ranges::{put, put_u16, put_u32, put_u64};
use fletcher64::put_checksum;

/// Writes the index block of a place over `g.block` bytes, with a sequence number of 1 to 3 and the free bits of the
/// slots. `free` has a bit for each slot. The bits past the last slot and the padding become zero.
pub fn write_block(into: &mut [u8], place: Place, seq: u32, g: &Geometry, free: &[u8])
    requires geometry { IsGeometry g.now }
    requires block { length into.old ≡ g.now.block }
    requires seq { IsSeq seq }
    requires free { g.now.slots ≤ 8 * length free.now }
    ensures text { into.new ≡ block_text place seq g.now free.now }
    ensures usable { kind_of place g.now into.new ≡ BlockKind.Usable seq }
    ensures free { (n : ℕ) → n < g.now.slots → is_free_in (free_map into.new) n ≡ is_free_in free.now n }
    ensures past { (n : ℕ) → g.now.slots ≤ n → is_free_in (free_map into.new) n ≡ false }
{
    put(into, 0, &fields(place, seq, g));
    write_map(&mut into[BITMAP_AT..], g.slots, free);
    put_checksum(into, BLOCK_CHECKSUM_AT);
}

/// The fields of a block, with a zero for the checksum.
fn fields(place: Place, seq: u32, g: &Geometry) -> [u8; BITMAP_AT]
    ensures { result ≡ fields_text place seq g.now }
{
    let block = u64::from(g.block);
    let mine = u64::from(g.place_offset(place));
    let other = u64::from(g.place_offset(place.other()));
    let mut fields = [0; BITMAP_AT];
    put(&mut fields, 0, SIGNATURE);
    fields[LABEL_SIZE_AT] = label_size(g.label);
    put_u32(&mut fields, SEQ_AT, seq);
    put_u64(&mut fields, MY_OFFSET_AT, mine);
    put_u64(&mut fields, MY_SIZE_AT, block);
    put_u64(&mut fields, OTHER_OFFSET_AT, other);
    put_u64(&mut fields, LABEL_OFFSET_AT, 2 * block);
    put_u32(&mut fields, SLOTS_AT, g.slots);
    put_u16(&mut fields, MAJOR_AT, 1);
    put_u16(&mut fields, MINOR_AT, minor(g.label));
    fields
}

/// Writes the free bits of slots, and zeros behind them.
fn write_map(map: &mut [u8], slots: u32, free: &[u8])
    requires room { slots < 8 * length map.old }
    requires free { slots ≤ 8 * length free.now }
    ensures { map.new ≡ map_text (length map.old) slots free.now }
{
    let whole = (slots / 8) as usize;
    let rest = slots % 8;
    map.fill(0);
    put(map, 0, &free[..whole]);
    if rest != 0 {
        map[whole] = free[whole] % (1 << rest);
    }
}
