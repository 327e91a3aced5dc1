//! Where the labels of a namespace stand.

ghost use Rattle.std.specs.Prelude.{◌≡◌, ◌<◌, true, length, map};
ghost use Rattle.std.specs.List.{All, Contains};
ghost use Rattle.label_table.specs.Belonging.{IsDisjoint};
ghost use Rattle.label_table.specs.Wholes.{is_whole};
ghost use Rattle.region_labels.specs.Fates.{platform_of, region_in};
ghost use Rattle.region_labels.specs.Modules.{labels_in};
ghost use Rattle.region_labels.specs.Regions.{IsOver};
ghost use Rattle.module_flips.specs.Together.{IsTogether};
ghost use Rattle.namespace_passes.specs.Healing.{HasOneAt, StandsAt};

use label_codec::Label;
use region_labels::{LoadedModule, RegionLabels};
use region_map::Region;
use uuid_index::Found;

/// A label, and where it stands.
#[derive(Clone, Copy, Debug, PartialEq, Eq)]
pub struct LabelPlace {
    /// Where the module stands among the modules.
    pub seat: usize,
    pub slot: u32,
    pub label: Label,
}

/// The label with the uuid of a namespace in the module at a position.
pub fn place_at(
    modules: &[LoadedModule],
    regions: &[RegionLabels],
    region: &Region,
    uuid: &[u8; 16],
    position: usize,
) -> LabelPlace
    requires together { IsTogether modules.now regions.now }
    requires region_in { Contains (map region_in regions.now) region.now }
    requires whole { is_whole (labels_in modules.now) region.now uuid.now ≡ true }
    requires position { position < length region.now.members }
    ensures { StandsAt modules.now region.now uuid.now position result }
{
    place_of(modules, regions, region, uuid, position)
}

/// The only label with a uuid in the module at a position, also where other modules of the region have none.
pub(crate) fn place_of(
    modules: &[LoadedModule],
    regions: &[RegionLabels],
    region: &Region,
    uuid: &[u8; 16],
    position: usize,
) -> LabelPlace
    requires together { IsTogether modules.now regions.now }
    requires region_in { Contains (map region_in regions.now) region.now }
    requires position { position < length region.now.members }
    requires one { HasOneAt (labels_in modules.now) region.now uuid.now position }
    ensures { StandsAt modules.now region.now uuid.now position result }
{
    let kept = kept_of(regions, region);
    let seat = kept.seats[position];
    match kept.index.find(uuid, position) {
        Found::Nowhere => unreachable!(),
        Found::Once { slot } => match kept.module_at(modules, position).label(slot) {
            Some(label) => LabelPlace {
                seat,
                slot,
                label: *label,
            },
            None => unreachable!(),
        },
        Found::Repeated => unreachable!(),
    }
}

/// What is kept of a region that is one of the regions.
fn kept_of<'a>(regions: &'a [RegionLabels], region: &Region) -> &'a RegionLabels
    requires disjoint { IsDisjoint (platform_of regions.now) }
    requires region_in { Contains (map region_in regions.now) region.now }
    ensures region { result.now.region ≡ region.now }
    ensures among { Contains regions.now result.now }
{
    for kept in regions {
        if kept.region.index == region.index {
            return kept;
        }
    }
    unreachable!()
}
