//! How an arena is found, and its lanes are looked at.

ghost use Rattle.std.specs.Prelude.{◌≡◌, ◌+◌, ◌<◌, ◌≤◌, length, nat_lt, is_some, is_none, IfOk};
ghost use Rattle.std.specs.Prelude.{IfSome, IsTrue, OnOk};
ghost use Rattle.std.specs.Result.{is_err};
ghost use Rattle.btt_arena.specs.declared.opening.ArenaFault.TheVariants.{Failed};
ghost use Rattle.byte_ranges.specs.Ranges.{range};
ghost use Rattle.btt_arena.specs.Arena.{IsFit, content, held_by};
ghost use Rattle.btt_arena.specs.Frames.{IsTold, Reads, GoesOn, Fails, LeavesOnly};
ghost use Rattle.btt_arena.specs.Info.{arena_in};
ghost use Rattle.btt_arena.specs.Layout.{IsLayout};
ghost use Rattle.btt_arena.specs.Opening.{AreRight, IsFirstWrong, IsNotOpened, IsOpened, IsOpening, Opens};
ghost use Rattle.btt_arena.specs.Opening.{is_half_right, is_lane_right, is_open_failed, newer_of_log};
ghost use Rattle.btt_arena.specs.Sectors.{GivesHeld, IsOldOrNew, IsRewritten, bytes_of, is_readable};
ghost use Rattle.btt_arena.specs.Tables.{block_named, map_in};

use crate::completing::complete_lanes;
use crate::formats::find_arena;
use crate::halves::{Half, newer_half};
use crate::lanes::LOG_BYTES;
use crate::layout::{LANES, Layout, is_size};
use crate::{Media, sectors, writing};
use std::marker::Model;

/// The block of a word is its low 30 bits.
const BLOCK_END: u32 = 1 << 30;

/// Why an arena isn't opened.
#[derive(Clone, Copy, Debug, PartialEq, Eq)]
pub enum ArenaFault {
    /// No info block is right.
    NoArena,
    /// The first lane without one newer half, or whose newer half notes a sector or a block that isn't there.
    Lane { lane: u32 },
    /// The media failed.
    Failed,
}

impl From<rig_trait::Failed> for ArenaFault {
    ghost from_gives = { λ _ fault. fault ≡ Failed };

    fn from(_: rig_trait::Failed) -> ArenaFault {
        ArenaFault::Failed
    }
}

/// An arena that was found in a media. Contracts see its layout.
#[derive(Clone, Copy, Debug, PartialEq, Eq)]
pub struct Arena {
    layout: Layout,
}

impl Model for Arena {
    ghost use Rattle.btt_arena.specs.declared.layout.Layout.{Layout};
    ghost use Rattle.btt_arena.specs.Layout.{IsLayout};

    ghost Value = { Layout };

    ghost view = { λ arena. arena.layout };

    ghost invariant = { λ arena. IsLayout arena.layout };

    ghost inverse = { λ a. record { layout = a } };
}

impl Arena {
    /// Finds the arena of a media, and completes in ascending order the lanes that a stop left open: those whose sector's
    /// map entry still names the old block of the newer half, and not the new one. Nothing but such entries is written,
    /// and none where it answers `NoArena` or `Lane`.
    pub fn open<M: Media>(media: &mut M) -> Result<Arena, ArenaFault>
        ensures answer { IsTold M.MediaState media.old → Opens (M.bytes media.old) result }
        ensures opened { IsTold M.MediaState media.old
            → IfOk result (λ arena. IsOpened arena (M.bytes media.old) (M.bytes media.new)) }

        // Whatever the answer, as the bytes stand then, and by a stop at any moment.
        ensures so_far { IsTold M.MediaState media.old → IsOpening (M.bytes media.old) (M.bytes media.new) }
        ensures any_moment { IsTold M.MediaState media.old → LeavesOnly M.MediaState media.old media.new
            (λ c. IsOpening (M.bytes media.old) c.bytes) }

        ensures refused { IsNotOpened result → Reads M.MediaState media.old media.new }
        ensures goes_on { GoesOn M.MediaState media.old media.new }
        ensures cause { Fails M.MediaState media.old media.new (is_open_failed result) }
    {
        let mut log = [0; LOG_BYTES];
        let layout = find_lanes(media, &mut log)?;
        complete_lanes(media, &layout, &log)?;
        Ok(Arena { layout })
    }

    /// Reads a sector: its number is below `blocks()`, and `into` has `sector()` bytes. `false`, with no word on what
    /// `into` holds then, exactly where its map entry is that of a bad sector or names a block that isn't there. A media
    /// that tells its bytes has the size of the one that was opened.
    pub fn read_sector<M: Media>(
        &self,
        media: &mut M,
        block: u32,
        into: &mut [u8],
    ) -> Result<bool, rig_trait::Failed>
        requires block { block < self.now.sectors }
        requires into { length into.old ≡ self.now.sector }
        requires told { IsTold M.MediaState media.old → length (M.bytes media.old) ≡ self.now.size }
        ensures answer { IsTold M.MediaState media.old
            → IfOk result (λ read. read ≡ is_readable self.now (map_in self.now (M.bytes media.old) block) block) }
        ensures bytes { IsTold M.MediaState media.old → IfOk result (λ read. IsTrue read
            → into.new ≡ bytes_of self.now.sector
            (held_by self.now (M.bytes media.old) (map_in self.now (M.bytes media.old) block) block)) }
        // Of an arena that is fit it gives what the sector holds.
        ensures content { IsTold M.MediaState media.old → IsFit self.now (M.bytes media.old)
            → IfOk result (λ read. GivesHeld self.now.sector (content self.now (M.bytes media.old) block) read into.new) }
        ensures reads_only { Reads M.MediaState media.old media.new }
        ensures cause { Fails M.MediaState media.old media.new (is_err result) }
    {
        sectors::read_sector(media, &self.layout, block, into)
    }

    /// Writes a sector: its number is below `blocks()`, and there are `sector()` bytes. They go to the free block of the
    /// lane of the sector's number, a note of that goes to the lane, and then the sector's map entry names the block.
    /// `None`, with nothing written, exactly where that entry names a block that isn't there. A media that tells its
    /// bytes has the size of the one that was opened. After an `Err` the arena is to be opened anew.
    pub fn write_sector<M: Media>(
        &mut self,
        media: &mut M,
        block: u32,
        bytes: &[u8],
    ) -> Result<Option<()>, rig_trait::Failed>
        requires block { block < self.old.sectors }
        requires bytes { length bytes.now ≡ self.old.sector }
        requires told { IsTold M.MediaState media.old → length (M.bytes media.old) ≡ self.old.size }
        ensures answer { IsTold M.MediaState media.old → IfOk result (λ written. is_some written
            ≡ nat_lt (block_named (map_in self.old (M.bytes media.old) block) block) self.old.blocks) }
        ensures unwritten { IfOk result (λ written. IsTrue (is_none written) → Reads M.MediaState media.old media.new) }

        // Of an arena that is fit: at Ok it is fit again and this sector holds the bytes; whatever the answer, and by a
        // stop at any moment, it is sound, and holds what it did or that with the bytes.
        ensures written { IsTold M.MediaState media.old → IsFit self.old (M.bytes media.old) → OnOk result
            (IsFit self.new (M.bytes media.new)
            × IsRewritten self.old (M.bytes media.old) block bytes.now (M.bytes media.new)) }
        ensures so_far { IsTold M.MediaState media.old → IsFit self.old (M.bytes media.old)
            → IsOldOrNew self.old (M.bytes media.old) block bytes.now (M.bytes media.new) }
        ensures any_moment { IsTold M.MediaState media.old → IsFit self.old (M.bytes media.old)
            → LeavesOnly M.MediaState media.old media.new
            (λ c. IsOldOrNew self.old (M.bytes media.old) block bytes.now c.bytes) }

        ensures numbers { self.new ≡ self.old }
        ensures goes_on { GoesOn M.MediaState media.old media.new }
        ensures cause { Fails M.MediaState media.old media.new (is_err result) }
    {
        writing::write_sector(media, &self.layout, block, bytes)
    }

    /// How many sectors it has.
    pub fn blocks(&self) -> u32
        ensures { result ≡ self.now.sectors }
    {
        self.layout.sectors
    }

    /// The size of a sector, in bytes.
    pub fn sector(&self) -> u32
        ensures { result ≡ self.now.sector }
    {
        self.layout.sector
    }
}

/// The layout of the arena in a media, of which all lanes are right, with the bytes of its lanes.
fn find_lanes<M: Media>(media: &mut M, log: &mut [u8; LOG_BYTES]) -> Result<Layout, ArenaFault>
    ensures answer { IsTold M.MediaState media.old → Opens (M.bytes media.old) result }
    ensures log { IsTold M.MediaState media.old
        → IfOk result (λ a. log.new ≡ range (M.bytes media.old) a.log_at 16384) }
    ensures size { IsTold M.MediaState media.old → IfOk result (λ a. a.size ≡ length (M.bytes media.old)) }
    ensures layout { IfOk result IsLayout }
    ensures right { IfOk result (λ a. AreRight a (newer_of_log log.new) 256) }
    ensures reads_only { Reads M.MediaState media.old media.new }
    ensures cause { Fails M.MediaState media.old media.new (is_open_failed result) }
{
    let Some(layout) = stored_layout(media)? else {
        return Err(ArenaFault::NoArena);
    };
    media.read(layout.log_at, log)?;
    match first_wrong(&layout, log) {
        Some(lane) => Err(ArenaFault::Lane { lane }),
        None => Ok(layout),
    }
}

/// The layout that the info blocks of a media tell.
fn stored_layout<M: Media>(media: &mut M) -> Result<Option<Layout>, rig_trait::Failed>
    ensures stored { IsTold M.MediaState media.old → IfOk result (λ stored. stored ≡ arena_in (M.bytes media.old)) }
    ensures size { IsTold M.MediaState media.old
        → IfOk result (λ stored. IfSome stored (λ a. a.size ≡ length (M.bytes media.old))) }
    ensures layout { IfOk result (λ stored. IfSome stored IsLayout) }
    ensures reads_only { Reads M.MediaState media.old media.new }
    ensures cause { Fails M.MediaState media.old media.new (is_err result) }
{
    let size = media.size()?;
    if !is_size(size) {
        return Ok(None);
    }
    find_arena(media, size)
}

/// The first lane that isn't right, by the bytes of all.
fn first_wrong(layout: &Layout, log: &[u8; LOG_BYTES]) -> Option<u32>
    ensures { IsFirstWrong layout.now (newer_of_log log.now) result }
{
    for lane in 0..LANES {
        if !is_right(layout, log, lane) {
            return Some(lane);
        }
    }
    None
}

/// Whether a lane has a newer half, and that is right.
fn is_right(layout: &Layout, log: &[u8; LOG_BYTES], lane: u32) -> bool
    requires { lane < 256 }
    ensures { result ≡ is_lane_right layout.now (newer_of_log log.now lane) }
{
    match newer_half(log, 64 * lane as usize) {
        Some(half) => is_half_right(layout, &half),
        None => false,
    }
}

/// Whether a half notes a sector of the arena, and two blocks of it.
fn is_half_right(layout: &Layout, half: &Half) -> bool
    ensures { result ≡ is_half_right layout.now half.now }
{
    half.lba < layout.sectors
        && half.old % BLOCK_END < layout.blocks
        && half.new % BLOCK_END < layout.blocks
}
