//! The lanes of an arena before the first write in them.

ghost use Rattle.std.specs.Prelude.{◌≡◌, ◌+◌, ◌*◌, ◌<◌, ℕ};
ghost use Rattle.byte_ranges.specs.Ranges.{range};
ghost use Rattle.btt_arena.specs.Formatting.{fresh_lane};
ghost use Rattle.btt_arena.specs.Layout.{IsLayout};

use crate::layout::{LANES, Layout};
use byte_ranges::{put, put_u32};

/// The bytes of a lane, of which the two halves are the first 32.
const LANE_BYTES: usize = 64;

/// The bytes of all lanes.
pub const LOG_BYTES: usize = 16_384;

/// What marks a block as that of a normal entry: bits 30 and 31.
pub const NORMAL: u32 = 3 << 30;

/// The lanes before the first write: each has its own free block behind the sectors.
pub fn fresh_log(layout: &Layout) -> [u8; LOG_BYTES]
    requires { IsLayout layout.now }
    ensures { (lane : ℕ) → lane < 256 → range result (64 * lane) 64 ≡ fresh_lane layout.now.sectors lane }
{
    let mut log = [0; LOG_BYTES];
    for lane in 0..LANES {
        put(
            &mut log,
            LANE_BYTES * lane as usize,
            &lane_text(layout, lane),
        );
    }
    log
}

/// A lane before the first write.
fn lane_text(layout: &Layout, lane: u32) -> [u8; LANE_BYTES]
    requires layout { IsLayout layout.now }
    requires lane { lane < 256 }
    ensures { result ≡ fresh_lane layout.now.sectors lane }
{
    let block = NORMAL + (layout.sectors + lane);
    let mut text = [0; LANE_BYTES];
    put_u32(&mut text, 0, lane);
    put_u32(&mut text, 4, block);
    put_u32(&mut text, 8, block);
    put_u32(&mut text, 12, 1);
    text
}
