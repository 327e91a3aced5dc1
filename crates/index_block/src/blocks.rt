//! Index blocks, and which of two is the current one.

ghost use Rattle.std.specs.Prelude.{◌≡◌, ◌%◌, ◌≤◌, length, IsTrue, IfSome};
ghost use Rattle.index_block.specs.Geometry.{IsGeometry, size_unit, window_bytes};
ghost use Rattle.index_block.specs.Blocks.{kind_of, IsNumbered, is_signed, has_size, is_sound, has_fields, has_offsets};
ghost use Rattle.index_block.specs.Blocks.{has_labels, label_size_of, minor_of};
ghost use Rattle.index_block.specs.Current.{current_place, is_followed_by, IsSeq};

use crate::geometry::{Geometry, OLD_LABEL_BYTES, Place, SIZE_UNIT};
use byte_ranges::{u16_at, u32_at, u64_at};
use fletcher64::has_checksum;

/// What stands at the place of an index block. A signed block has its signature, a size that fits and its checksum; a
/// usable one is also the area's own, and a foreign one is not.
#[derive(Clone, Copy, Debug, PartialEq, Eq)]
pub enum BlockKind {
    Unsigned,
    Foreign,
    /// The sequence number is 1, 2 or 3.
    Usable { seq: u32 },
}

/// The signature of an index block.
pub(crate) const SIGNATURE: &[u8; 16] = b"NAMESPACE_INDEX\0";

// The offsets of the fields, in bytes.
pub(crate) const LABEL_SIZE_AT: usize = 19;

pub(crate) const SEQ_AT: usize = 20;

pub(crate) const MY_OFFSET_AT: usize = 24;

pub(crate) const MY_SIZE_AT: usize = 32;

pub(crate) const OTHER_OFFSET_AT: usize = 40;

pub(crate) const LABEL_OFFSET_AT: usize = 48;

pub(crate) const SLOTS_AT: usize = 56;

pub(crate) const MAJOR_AT: usize = 60;

pub(crate) const MINOR_AT: usize = 62;

pub(crate) const BLOCK_CHECKSUM_AT: usize = 64;

/// What stands at a place. The window is the bytes from the place to the end of the area, at most `WINDOW_BYTES` of
/// them.
#[tactic(auto, unfolding(crate::specs::Blocks::is_usable))]
pub fn read_block(window: &[u8], place: Place, g: &Geometry) -> BlockKind
    requires geometry { IsGeometry g.now }
    requires long { g.now.block ≤ length window.now }
    requires short { length window.now ≤ window_bytes }
    ensures kind { result ≡ kind_of place g.now window.now }
    ensures numbered { IsNumbered result }
{
    let seq = u32_at(window, SEQ_AT) % 4;
    if !is_signed(window) {
        BlockKind::Unsigned
    } else if seq != 0 && has_fields(window, place, g) {
        BlockKind::Usable { seq }
    } else {
        BlockKind::Foreign
    }
}

/// Whether a signed block stands at the front of the window.
#[tactic(auto, unfolding(crate::specs::Blocks::is_signed))]
fn is_signed(window: &[u8]) -> bool
    requires { size_unit ≤ length window.now }
    ensures { result ≡ is_signed window.now }
{
    has_size(window) && is_sound(&window[..u64_at(window, MY_SIZE_AT) as usize])
}

/// Whether the size that a block tells is one that a block can have, and the window holds it.
fn has_size(window: &[u8]) -> bool
    requires { size_unit ≤ length window.now }
    ensures { result ≡ has_size window.now }
{
    let size = u64_at(window, MY_SIZE_AT);
    size % SIZE_UNIT == 0 && size >= SIZE_UNIT && size <= window.len() as u64
}

/// Whether a block has the signature, and the checksum of all its bytes.
fn is_sound(block: &[u8]) -> bool
    requires aligned { length block.now % size_unit ≡ 0 }
    requires least { size_unit ≤ length block.now }
    ensures { result ≡ is_sound block.now }
{
    block.starts_with(SIGNATURE) && has_checksum(block, BLOCK_CHECKSUM_AT)
}

/// Whether the fields are those of the place.
#[tactic(auto, unfolding(crate::specs::Blocks::has_fields))]
fn has_fields(window: &[u8], place: Place, g: &Geometry) -> bool
    requires { size_unit ≤ length window.now }
    ensures { result ≡ has_fields place g.now window.now }
{
    has_offsets(window, place, g) && has_labels(window, g)
}

/// Whether its own offset and size, and the offsets of the other block and of slot 0, are those of the place.
fn has_offsets(window: &[u8], place: Place, g: &Geometry) -> bool
    requires { size_unit ≤ length window.now }
    ensures { result ≡ has_offsets place g.now window.now }
{
    let mine = u64::from(g.place_offset(place));
    let other = u64::from(g.place_offset(place.other()));
    let block = u64::from(g.block);
    u64_at(window, MY_OFFSET_AT) == mine
        && u64_at(window, MY_SIZE_AT) == block
        && u64_at(window, OTHER_OFFSET_AT) == other
        && u64_at(window, LABEL_OFFSET_AT) == 2 * block
}

/// Whether the size and the number of its labels are those of the geometry, and the version fits that size.
fn has_labels(window: &[u8], g: &Geometry) -> bool
    requires { size_unit ≤ length window.now }
    ensures { result ≡ has_labels g.now window.now }
{
    window[LABEL_SIZE_AT] == label_size(g.label)
        && u32_at(window, SLOTS_AT) == g.slots
        && u16_at(window, MAJOR_AT) == 1
        && u16_at(window, MINOR_AT) == minor(g.label)
}

/// The field LabelSize for labels of `label` bytes.
pub(crate) fn label_size(label: u32) -> u8
    ensures { result ≡ label_size_of label }
{
    if label == OLD_LABEL_BYTES { 0 } else { 1 }
}

/// The minor version for labels of `label` bytes.
pub(crate) fn minor(label: u32) -> u16
    ensures { result ≡ minor_of label }
{
    if label == OLD_LABEL_BYTES { 1 } else { 2 }
}

/// The current one of two places, by the sequence numbers of the usable blocks there. `None` exactly where none is
/// usable.
pub fn current(first: Option<u32>, second: Option<u32>) -> Option<Place>
    requires first { IfSome first IsSeq }
    requires second { IfSome second IsSeq }
    ensures { result ≡ current_place first second }
{
    match (first, second) {
        (None, None) => None,
        (Some(_), None) => Some(Place::First),
        (None, Some(_)) => Some(Place::Second),
        (Some(first), Some(second)) => match (second, first) {
            (1, 2) | (2, 3) | (3, 1) => Some(Place::First),
            _ => Some(Place::Second),
        },
    }
}

/// The sequence number of the block that follows.
pub fn next_seq(seq: u32) -> u32
    requires { IsSeq seq }
    ensures follows { IsTrue (is_followed_by seq result) }
    ensures numbered { IsSeq result }
{
    if seq == 3 { 1 } else { seq + 1 }
}
