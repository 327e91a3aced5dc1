//! How a sector is read.

ghost use Rattle.std.specs.Prelude.{◌≡◌, ◌+◌, ◌*◌, ◌<◌, length, IfOk, IsTrue};
ghost use Rattle.std.specs.Result.{is_err};
ghost use Rattle.btt_arena.specs.Arena.{held_by};
ghost use Rattle.btt_arena.specs.Frames.{IsTold, Reads, Fails};
ghost use Rattle.btt_arena.specs.Layout.{IsLayout, data_at};
ghost use Rattle.btt_arena.specs.Sectors.{bytes_of, is_bad, is_readable, is_zeros};
ghost use Rattle.btt_arena.specs.Tables.{map_in};

use crate::Media;
use crate::completing::block_named;
use crate::layout::{DATA_AT, Layout};
use crate::single_words::read_word;
use rig_trait::Failed;

/// Reads a sector, where its entry is that of no bad sector and names a block of the arena.
pub fn read_sector<M: Media>(
    media: &mut M,
    layout: &Layout,
    sector: u32,
    into: &mut [u8],
) -> Result<bool, Failed>
    requires layout { IsLayout layout.now }
    requires sector { sector < layout.now.sectors }
    requires into { length into.old ≡ layout.now.sector }
    requires told { IsTold M.MediaState media.old → length (M.bytes media.old) ≡ layout.now.size }
    ensures answer { IsTold M.MediaState media.old
        → IfOk result (λ read. read ≡ is_readable layout.now (map_in layout.now (M.bytes media.old) sector) sector) }
    ensures bytes { IsTold M.MediaState media.old → IfOk result (λ read. IsTrue read
        → into.new ≡ bytes_of layout.now.sector
        (held_by layout.now (M.bytes media.old) (map_in layout.now (M.bytes media.old) sector) sector)) }
    ensures reads_only { Reads M.MediaState media.old media.new }
    ensures cause { Fails M.MediaState media.old media.new (is_err result) }
{
    let entry = read_word(media, layout.map_at + 4 * u64::from(sector))?;
    let block = block_named(entry, sector);
    if is_bad(entry) || block >= layout.blocks {
        return Ok(false);
    }
    if is_zeros(entry) {
        into.fill(0);
        return Ok(true);
    }
    media.read(block_at(layout, block), into)?;
    Ok(true)
}

/// Whether the entry is that of a bad sector: bit 30 alone is set.
fn is_bad(entry: u32) -> bool
    ensures { result ≡ is_bad entry }
{
    entry >> 30 == 1
}

/// Whether the entry is that of a sector of zeros: bit 31 alone is set.
fn is_zeros(entry: u32) -> bool
    ensures { result ≡ is_zeros entry }
{
    entry >> 30 == 2
}

/// Where a block begins.
pub fn block_at(layout: &Layout, block: u32) -> u64
    requires layout { IsLayout layout.now }
    requires block { block < layout.now.blocks }
    ensures { result ≡ data_at + block * layout.now.sector }
{
    DATA_AT + u64::from(block) * u64::from(layout.sector)
}
