//! What holds of each region whose addresses can be translated.

ghost use Rattle.std.specs.Prelude.{◌≡◌, None};
ghost use Rattle.region_map.specs.declared.platform.Platform.{Platform};
ghost use Rattle.region_map.specs.declared.platform.Region.{Region};
ghost use Rattle.region_map.specs.Sound.{IsUsable};
ghost use Rattle.spa_translate.specs.Faults.{first_fault, woven_of};
ghost use Rattle.spa_translate.specs.Pairs.{HasIntervals, IsOneToOne, KeepsApart};

/// Each address of the range is in exactly one pair, and so is each module address of each member's part.
pub fn one_to_one()
    ensures { (platform : Platform) (region : Region) → IsUsable platform region
        → first_fault platform.tables region.members ≡ None → IsOneToOne (woven_of platform.tables region) }
{}

/// An interval of whole periods of the region is the same interval of each member's part.
pub fn whole_intervals()
    ensures { (platform : Platform) (region : Region) → IsUsable platform region
        → first_fault platform.tables region.members ≡ None → HasIntervals (woven_of platform.tables region) }
{}

/// Intervals of the region without a common address never reach one byte of a module.
pub fn intervals_apart()
    ensures { (platform : Platform) (region : Region) → IsUsable platform region
        → first_fault platform.tables region.members ≡ None → KeepsApart (woven_of platform.tables region) }
{}
