//! What a write of a sector takes of its lane.

ghost use Rattle.std.specs.Prelude.{◌≡◌, ◌<◌, length, IfOk};
ghost use Rattle.std.specs.Result.{is_err};
ghost use Rattle.btt_arena.specs.Frames.{IsTold, Reads, Fails};
ghost use Rattle.btt_arena.specs.Layout.{IsLayout};
ghost use Rattle.btt_arena.specs.Sectors.{IsInLog, turn_by, turn_of};

use crate::Media;
use crate::completing::BLOCK_END;
use crate::halves::{Half, half_at, is_newer};
use crate::layout::Layout;
use rig_trait::Failed;

/// What a write of a sector takes of its lane.
#[derive(Clone, Copy, Debug, PartialEq, Eq)]
pub struct Turn {
    /// The free block.
    pub free: u32,
    /// Where the older half begins, in bytes.
    pub older_at: u64,
    /// The number that follows the newer half's.
    pub next: u32,
}

/// What a write takes of a lane.
pub fn read_turn<M: Media>(media: &mut M, layout: &Layout, lane: u32) -> Result<Turn, Failed>
    requires layout { IsLayout layout.now }
    requires lane { lane < 256 }
    requires told { IsTold M.MediaState media.old → length (M.bytes media.old) ≡ layout.now.size }
    ensures turn { IsTold M.MediaState media.old
        → IfOk result (λ turn. turn ≡ turn_of layout.now (M.bytes media.old) lane) }
    ensures in_log { IfOk result (IsInLog layout.now) }
    ensures reads_only { Reads M.MediaState media.old media.new }
    ensures cause { Fails M.MediaState media.old media.new (is_err result) }
{
    let at = layout.log_at + 64 * u64::from(lane);
    let mut text = [0; 32];
    media.read(at, &mut text)?;
    let first = half_at(&text, 0);
    let second = half_at(&text, 16);
    if is_newer(first.seq, second.seq) {
        Ok(turn_by(layout, &first, at + 16))
    } else {
        Ok(turn_by(layout, &second, at))
    }
}

/// What a write takes of a lane, by its newer half. A media that isn't as it was opened may note any block.
fn turn_by(layout: &Layout, newer: &Half, older_at: u64) -> Turn
    requires { IsLayout layout.now }
    ensures { result ≡ turn_by layout.now newer.now older_at }
{
    Turn {
        free: newer.old % BLOCK_END % layout.blocks,
        older_at,
        next: newer.seq % 3 + 1,
    }
}
