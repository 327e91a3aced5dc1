//! What holds of each sound platform.

ghost use Rattle.std.specs.Prelude.{◌≡◌, Contains, None, Some};
ghost use Rattle.std.specs.List.Sorted.{IsStrictlyIncreasing};
ghost use Rattle.view_types.specs.declared.rule.Rule.{Rule};
ghost use Rattle.region_map.specs.declared.platform.Platform.{Platform};
ghost use Rattle.region_map.specs.declared.platform.Region.{Region};
ghost use Rattle.region_map.specs.Platforms.{IsSound, IsUnusable};
ghost use Rattle.region_map.specs.Sound.{AreDisjoint, AreOrdered, IsUsable};

/// Two usable regions never share a byte of a module.
pub fn disjoint_regions()
    ensures { (platform : Platform) → IsSound platform → AreDisjoint platform }
{}

/// Regions have different indices, and stand by them.
pub fn regions_by_index()
    ensures { (platform : Platform) → IsSound platform → AreOrdered platform.regions }
{}

/// What is known of a region that can be used.
pub fn usable_regions()
    ensures { (platform : Platform) (region : Region) → IsSound platform → Contains platform.regions region
        → region.rule ≡ None → IsUsable platform region }
{}

/// A region that cannot be used has no members.
pub fn unusable_regions()
    ensures { (platform : Platform) (region : Region) (rule : Rule) → IsSound platform → Contains platform.regions region
        → region.rule ≡ Some rule → IsUnusable region }
{}
