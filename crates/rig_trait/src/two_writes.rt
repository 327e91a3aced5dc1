//! Two writes into one area, one after the other.

ghost use Rattle.std.specs.Prelude.{◌≡◌, length};
ghost use Rattle.std.specs.Result.{is_err};
ghost use Rattle.rig_trait.specs.Areas.{IsWithin};
ghost use Rattle.rig_trait.specs.Frames.{IsTold, WritesTo, FailsAt};
ghost use Rattle.rig_trait.specs.TwoWrites.{LeavesTwo, WritesBoth, WritesInTurn};

use crate::{Failed, Rig};

/// Puts bytes into an area from the offset `first_at` on, and then others from `second_at` on. The second write begins
/// where the first is durable: a stop at any moment leaves neither of them, a front of them, or any bytes where the
/// one goes that was stopped or failed.
pub fn write_two<R: Rig>(
    rig: &mut R,
    dimm: u32,
    first_at: u64,
    first: &[u8],
    second_at: u64,
    second: &[u8],
) -> Result<(), Failed>
    requires first { IsTold R.Shown rig.old → IsWithin (R.areas rig.old) dimm first_at (length first.now) }
    requires second { IsTold R.Shown rig.old → IsWithin (R.areas rig.old) dimm second_at (length second.now) }
    ensures both { WritesBoth R.Shown rig.old rig.new dimm first_at first.now second_at second.now result }
    ensures in_turn { WritesInTurn R.Shown rig.old rig.new dimm first_at first.now second_at second.now result }
    ensures any_moment { LeavesTwo R.Shown rig.old rig.new dimm first_at first.now second_at second.now }
    ensures writes_only { WritesTo dimm R.Shown rig.old rig.new }
    ensures cause { FailsAt dimm R.Shown rig.old rig.new (is_err result) }
    ensures reads { R.reads rig.new ≡ R.reads rig.old }
{
    rig.write(dimm, first_at, first)?;
    rig.write(dimm, second_at, second)
}
