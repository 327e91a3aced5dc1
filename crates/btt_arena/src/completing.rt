//! How the lanes that a stop left open are completed.

ghost use Rattle.std.specs.Prelude.{◌≡◌, ◌<◌, length, IfSome, OnOk};
ghost use Rattle.std.specs.Result.{is_err};
ghost use Rattle.btt_arena.specs.Completing.{HasMap, IsCompleted, IsHereOrThere, IsPartly};
ghost use Rattle.btt_arena.specs.Frames.{IsTold, GoesOn, Fails, LeavesOnly};
ghost use Rattle.btt_arena.specs.Layout.{IsLayout};
ghost use Rattle.btt_arena.specs.Opening.{AreRight, newer_of_log};
ghost use Rattle.btt_arena.specs.Tables.{block_named, is_open_by, map_in, with_lane};

use crate::Media;
use crate::halves::{Half, newer_half};
use crate::lanes::LOG_BYTES;
use crate::layout::{LANES, Layout};
use crate::single_words::{read_word, write_word};
use rig_trait::Failed;

/// The block of a word is its low 30 bits.
pub const BLOCK_END: u32 = 1 << 30;

/// Completes the lanes of an arena in ascending order, by the bytes of all.
pub fn complete_lanes<M: Media>(
    media: &mut M,
    layout: &Layout,
    log: &[u8; LOG_BYTES],
) -> Result<(), Failed>
    requires layout { IsLayout layout.now }
    requires told { IsTold M.MediaState media.old → length (M.bytes media.old) ≡ layout.now.size }
    requires right { AreRight layout.now (newer_of_log log.now) 256 }
    ensures completed { IsTold M.MediaState media.old → OnOk result
        (IsCompleted layout.now (newer_of_log log.now) (M.bytes media.old) 256 (M.bytes media.new)) }
    ensures so_far { IsTold M.MediaState media.old
        → IsPartly layout.now (newer_of_log log.now) (M.bytes media.old) (M.bytes media.new) }
    ensures any_moment { IsTold M.MediaState media.old → LeavesOnly M.MediaState media.old media.new
        (λ c. IsPartly layout.now (newer_of_log log.now) (M.bytes media.old) c.bytes) }
    ensures goes_on { GoesOn M.MediaState media.old media.new }
    ensures cause { Fails M.MediaState media.old media.new (is_err result) }
{
    for lane in 0..LANES {
        complete(media, layout, newer_half(log, 64 * lane as usize))?;
    }
    Ok(())
}

/// Completes a lane, where its sector's entry names the old block of its newer half and not the new one.
fn complete<M: Media>(media: &mut M, layout: &Layout, newer: Option<Half>) -> Result<(), Failed>
    requires layout { IsLayout layout.now }
    requires told { IsTold M.MediaState media.old → length (M.bytes media.old) ≡ layout.now.size }
    requires sector { IfSome newer (λ half. half.lba < layout.now.sectors) }
    ensures completed { IsTold M.MediaState media.old → OnOk result
        (HasMap layout.now (with_lane newer (map_in layout.now (M.bytes media.old)))
        (M.bytes media.old) (M.bytes media.new)) }
    ensures so_far { IsTold M.MediaState media.old
        → IsHereOrThere layout.now newer (M.bytes media.old) (M.bytes media.new) }
    ensures any_moment { IsTold M.MediaState media.old → LeavesOnly M.MediaState media.old media.new
        (λ c. IsHereOrThere layout.now newer (M.bytes media.old) c.bytes) }
    ensures goes_on { GoesOn M.MediaState media.old media.new }
    ensures cause { Fails M.MediaState media.old media.new (is_err result) }
{
    let Some(half) = newer else {
        return Ok(());
    };
    let at = layout.map_at + 4 * u64::from(half.lba);
    let entry = read_word(media, at)?;
    if !is_open(&half, entry) {
        return Ok(());
    }
    write_word(media, at, half.new)
}

/// Whether the write that a half notes was stopped before its last step, by the entry of its sector.
fn is_open(half: &Half, entry: u32) -> bool
    ensures { result ≡ is_open_by half.now entry }
{
    let old = half.old % BLOCK_END;
    old != half.new % BLOCK_END && block_named(entry, half.lba) == old
}

/// The block that the entry of a sector names.
pub fn block_named(entry: u32, sector: u32) -> u32
    ensures { result ≡ block_named entry sector }
{
    if entry >> 30 == 0 {
        sector
    } else {
        entry % BLOCK_END
    }
}
