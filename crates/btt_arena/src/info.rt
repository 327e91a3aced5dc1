//! The info blocks of an arena.

ghost use Rattle.std.specs.Prelude.{◌≡◌, ◌≤◌, length, IsTrue, IfSome};
ghost use Rattle.btt_arena.specs.Info.{fields_text, info_text, is_right, told_layout};
ghost use Rattle.btt_arena.specs.Layout.{IsLayout, is_size};

use crate::layout::Layout;
use byte_ranges::{put, put_u16, put_u32, put_u64};
use fletcher64::{has_checksum, put_checksum};

/// The bytes of an info block.
pub const INFO_BYTES: usize = 4096;

/// The signature of an info block.
const SIGNATURE: &[u8; 16] = b"BTT_ARENA_INFO\0\0";

// The offsets of parts, in bytes.
const UUID_AT: usize = 16;

const FIELDS_AT: usize = 32;

const CHECKSUM_AT: usize = 4088;

/// The bytes of the fields from ParentUuid to InfoOff.
const FIELDS_BYTES: usize = 88;

/// The layout that an info block of a media of some size tells, where it is right.
pub fn told_layout(size: u64, block: &[u8]) -> Option<Layout>
    requires size { IsTrue (is_size size) }
    requires block { length block.now ≡ 4096 }
    ensures told { result ≡ told_layout size block.now }
    ensures layout { IfSome result IsLayout }
    ensures size { IfSome result (λ a. a.size ≡ size) }
{
    let small = Layout::of(size, 512);
    if is_right(&small, block) {
        return Some(small);
    }
    let large = Layout::of(size, 4096);
    if is_right(&large, block) {
        return Some(large);
    }
    None
}

/// Whether a block is the info block of an arena with a layout.
#[tactic(auto, unfolding(crate::specs::Info::is_right))]
fn is_right(layout: &Layout, block: &[u8]) -> bool
    requires { length block.now ≡ 4096 }
    ensures { result ≡ is_right layout.now block.now }
{
    block.starts_with(SIGNATURE)
        && block[FIELDS_AT..].starts_with(&fields(layout))
        && has_checksum(block, CHECKSUM_AT)
}

/// The fields from ParentUuid to InfoOff.
fn fields(layout: &Layout) -> [u8; FIELDS_BYTES]
    ensures { result ≡ fields_text layout.now }
{
    let mut fields = [0; FIELDS_BYTES];
    put_u16(&mut fields, 20, 2);
    put_u32(&mut fields, 24, layout.sector);
    put_u32(&mut fields, 28, layout.sectors);
    put_u32(&mut fields, 32, layout.sector);
    put_u32(&mut fields, 36, layout.blocks);
    put_u32(&mut fields, 40, 256);
    put_u32(&mut fields, 44, 4096);
    put_u64(&mut fields, 56, 4096);
    put_u64(&mut fields, 64, layout.map_at);
    put_u64(&mut fields, 72, layout.log_at);
    put_u64(&mut fields, 80, layout.info_at);
    fields
}

/// The info block of an arena.
pub fn info_block(layout: &Layout, uuid: &[u8; 16]) -> [u8; INFO_BYTES]
    ensures { result ≡ info_text layout.now uuid.now }
{
    let mut block = [0; INFO_BYTES];
    put(&mut block, 0, SIGNATURE);
    put(&mut block, UUID_AT, uuid);
    put(&mut block, FIELDS_AT, &fields(layout));
    put_checksum(&mut block, CHECKSUM_AT);
    block
}
