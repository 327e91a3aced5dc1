//! How a sector is written: its bytes go to a free block, and a note of that to a lane, before its entry names the block.

ghost use Rattle.std.specs.Prelude.{◌≡◌, ◌+◌, ◌*◌, ◌%◌, ◌<◌, length, nat_lt, is_some, is_none, IfOk, IsTrue, OnOk};
ghost use Rattle.std.specs.Result.{is_err};
ghost use Rattle.btt_arena.specs.Arena.{IsFit};
ghost use Rattle.btt_arena.specs.Frames.{IsTold, Reads, GoesOn, Fails, LeavesOnly};
ghost use Rattle.btt_arena.specs.Layout.{IsLayout, data_at};
ghost use Rattle.btt_arena.specs.Sectors.{IsBeside, IsInLog, IsNoted, IsOldOrNew, IsRewritten, note_of, turn_of};
ghost use Rattle.btt_arena.specs.Tables.{block_named, map_in};

use crate::Media;
use crate::completing::block_named;
use crate::lanes::NORMAL;
use crate::layout::{LANES, Layout};
use crate::sectors::block_at;
use crate::single_words::{read_word, write_word};
use crate::turns::{Turn, read_turn};
use byte_ranges::put_u32;
use rig_trait::Failed;

/// The bytes of a note: three words.
const NOTE_BYTES: usize = 12;

/// Writes a sector by the lane of its number, where its entry names a block of the arena.
pub fn write_sector<M: Media>(
    media: &mut M,
    layout: &Layout,
    sector: u32,
    bytes: &[u8],
) -> Result<Option<()>, Failed>
    requires layout { IsLayout layout.now }
    requires sector { sector < layout.now.sectors }
    requires bytes { length bytes.now ≡ layout.now.sector }
    requires told { IsTold M.MediaState media.old → length (M.bytes media.old) ≡ layout.now.size }
    ensures answer { IsTold M.MediaState media.old → IfOk result (λ written. is_some written
        ≡ nat_lt (block_named (map_in layout.now (M.bytes media.old) sector) sector) layout.now.blocks) }
    ensures unwritten { IfOk result (λ written. IsTrue (is_none written) → Reads M.MediaState media.old media.new) }
    ensures written { IsTold M.MediaState media.old → IsFit layout.now (M.bytes media.old) → OnOk result
        (IsFit layout.now (M.bytes media.new)
        × IsRewritten layout.now (M.bytes media.old) sector bytes.now (M.bytes media.new)) }
    ensures so_far { IsTold M.MediaState media.old → IsFit layout.now (M.bytes media.old)
        → IsOldOrNew layout.now (M.bytes media.old) sector bytes.now (M.bytes media.new) }
    ensures any_moment { IsTold M.MediaState media.old → IsFit layout.now (M.bytes media.old)
        → LeavesOnly M.MediaState media.old media.new
        (λ c. IsOldOrNew layout.now (M.bytes media.old) sector bytes.now c.bytes) }
    ensures goes_on { GoesOn M.MediaState media.old media.new }
    ensures cause { Fails M.MediaState media.old media.new (is_err result) }
{
    let entry = read_word(media, layout.map_at + 4 * u64::from(sector))?;
    let old = block_named(entry, sector);
    if old >= layout.blocks {
        return Ok(None);
    }
    let turn = read_turn(media, layout, sector % LANES)?;
    write_by(media, layout, &turn, sector, old, bytes)?;
    Ok(Some(()))
}

/// Makes the four writes of a sector's write.
fn write_by<M: Media>(
    media: &mut M,
    layout: &Layout,
    turn: &Turn,
    sector: u32,
    old: u32,
    bytes: &[u8],
) -> Result<(), Failed>
    requires layout { IsLayout layout.now }
    requires turn { IsInLog layout.now turn.now }
    requires sector { sector < layout.now.sectors }
    requires old { old < layout.now.blocks }
    requires bytes { length bytes.now ≡ layout.now.sector }
    requires told { IsTold M.MediaState media.old → length (M.bytes media.old) ≡ layout.now.size }
    requires known { IsTold M.MediaState media.old → turn.now ≡ turn_of layout.now (M.bytes media.old) (sector % 256) }
    requires named { IsTold M.MediaState media.old
        → old ≡ block_named (map_in layout.now (M.bytes media.old) sector) sector }
    ensures written { IsTold M.MediaState media.old → IsFit layout.now (M.bytes media.old) → OnOk result
        (IsFit layout.now (M.bytes media.new)
        × IsRewritten layout.now (M.bytes media.old) sector bytes.now (M.bytes media.new)) }
    ensures so_far { IsTold M.MediaState media.old → IsFit layout.now (M.bytes media.old)
        → IsOldOrNew layout.now (M.bytes media.old) sector bytes.now (M.bytes media.new) }
    ensures any_moment { IsTold M.MediaState media.old → IsFit layout.now (M.bytes media.old)
        → LeavesOnly M.MediaState media.old media.new
        (λ c. IsOldOrNew layout.now (M.bytes media.old) sector bytes.now c.bytes) }
    ensures goes_on { GoesOn M.MediaState media.old media.new }
    ensures cause { Fails M.MediaState media.old media.new (is_err result) }
{
    let entry_at = layout.map_at + 4 * u64::from(sector);
    let note = note_of(sector, old, turn.free);
    note_beside(media, layout, turn, &note, bytes)?;
    write_word(media, turn.older_at + 12, turn.next)?;
    write_word(media, entry_at, NORMAL + turn.free)
}

/// Puts the bytes into the free block, and the note into the older half but for its number.
fn note_beside<M: Media>(
    media: &mut M,
    layout: &Layout,
    turn: &Turn,
    note: &[u8; NOTE_BYTES],
    bytes: &[u8],
) -> Result<(), Failed>
    requires layout { IsLayout layout.now }
    requires turn { IsInLog layout.now turn.now }
    requires bytes { length bytes.now ≡ layout.now.sector }
    requires told { IsTold M.MediaState media.old → length (M.bytes media.old) ≡ layout.now.size }
    ensures noted { IsTold M.MediaState media.old → OnOk result
        (IsNoted layout.now (data_at + turn.now.free * layout.now.sector) turn.now.older_at (M.bytes media.old)
        bytes.now note.now (M.bytes media.new)) }
    ensures so_far { IsTold M.MediaState media.old
        → IsBeside (data_at + turn.now.free * layout.now.sector) layout.now.sector turn.now.older_at
        (M.bytes media.old) (M.bytes media.new) }
    ensures any_moment { IsTold M.MediaState media.old → LeavesOnly M.MediaState media.old media.new
        (λ c. IsBeside (data_at + turn.now.free * layout.now.sector) layout.now.sector turn.now.older_at
        (M.bytes media.old) c.bytes) }
    ensures goes_on { GoesOn M.MediaState media.old media.new }
    ensures cause { Fails M.MediaState media.old media.new (is_err result) }
{
    media.write(block_at(layout, turn.free), bytes)?;
    media.write(turn.older_at, note)
}

/// The note of a write: the sector, the block that its entry names, and its new block.
fn note_of(sector: u32, old: u32, new: u32) -> [u8; NOTE_BYTES]
    requires old { old < 1073741824 }
    requires new { new < 1073741824 }
    ensures { result ≡ note_of sector old new }
{
    let mut note = [0; NOTE_BYTES];
    put_u32(&mut note, 0, sector);
    put_u32(&mut note, 4, NORMAL + old);
    put_u32(&mut note, 8, NORMAL + new);
    note
}
