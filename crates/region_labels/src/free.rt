//! The free space of a region.

ghost use Rattle.std.specs.Prelude.{◌≡◌, ◌<◌, ◌++◌, IfOk, OnOk, length, map};
ghost use Rattle.std.specs.List.{All};
ghost use Rattle.std.specs.Option.{option_copied, option_to_list};
ghost use Rattle.label_table.specs.Division.{AreFreeExtents, part_size, size_among};
ghost use Rattle.label_table.specs.Namespaces.{namespaces};
ghost use Rattle.region_labels.specs.Fates.{platform_of};
ghost use Rattle.region_labels.specs.Modules.{labels_in, module_in};
ghost use Rattle.region_labels.specs.Ranges.{held_range, held_ranges, range_in, range_of};
ghost use Rattle.region_labels.specs.Regions.{IsOver};
ghost use Rattle.region_labels.specs.Statuses.{space_in};

use crate::fates::is_held;
use crate::modules::LoadedModule;
use crate::region::RegionLabels;
use extent_alloc::Extents;
use label_codec::Label;
use region_map::Member;
use std::alloc::{AllocError, Global};
use view_types::{Extent, Namespace};

/// The free extents of a region, whose namespaces these are.
pub fn free_extents(
    alloc: Global,
    modules: &[LoadedModule],
    regions: &[RegionLabels],
    kept: &RegionLabels,
    spaces: &[Namespace],
) -> Result<Extents, AllocError>
    requires regions { All (IsOver modules.now) regions.now }
    requires over { IsOver modules.now kept.now }
    requires spaces { map space_in spaces.now ≡ namespaces (labels_in modules.now) kept.now.region }
    ensures free { IfOk result (λ free.
        AreFreeExtents (platform_of regions.now) (labels_in modules.now) kept.now.region free.extents) }
    ensures whole { IfOk result (λ free. free.whole ≡ part_size kept.now.region) }
{
    let mut ranges = ranges_of(alloc, spaces)?;
    for position in 0..kept.region.members.len() {
        let base = kept.region.members.as_slice()[position].dpa_base;
        let loaded = kept.module_at(modules, position);
        push_held_ranges(&mut ranges, modules, regions, base, loaded)?;
    }
    Extents::outside(alloc, part_size(kept.region.members.as_slice()), ranges)
}

/// The size of each member's part of the region in bytes.
fn part_size(members: &[Member]) -> u64
    ensures { result ≡ size_among members.now }
{
    match members {
        [] => 0,
        [member, ..] => member.size,
    }
}

/// The ranges of namespaces.
fn ranges_of(alloc: Global, spaces: &[Namespace]) -> Result<Vec<Extent>, AllocError>
    ensures { IfOk result (λ ranges. ranges.items ≡ map (λ space. range_of (space_in space)) spaces.now) }
{
    spaces
        .iter()
        .map(|space| Extent {
            start: space.offset,
            len: space.length,
        })
        .collect(alloc)
}

/// Adds the ranges that held labels of a module have in the part of it that begins at an address.
fn push_held_ranges(
    ranges: &mut Vec<Extent>,
    modules: &[LoadedModule],
    regions: &[RegionLabels],
    base: u64,
    loaded: &LoadedModule,
) -> Result<(), AllocError>
    requires { All (IsOver modules.now) regions.now }
    ensures { OnOk result (ranges.new.items ≡ ranges.old.items
        ++ held_ranges (platform_of regions.now) (labels_in modules.now) base loaded.now.dimm (module_in loaded.now)) }
{
    for slot in 0..loaded.slots() {
        if let Some(label) = loaded.label(slot) {
            push_range(ranges, modules, regions, base, loaded.dimm, label)?;
        }
    }
    Ok(())
}

/// Adds the range of a label of the module with this device handle, if it is held.
fn push_range(
    ranges: &mut Vec<Extent>,
    modules: &[LoadedModule],
    regions: &[RegionLabels],
    base: u64,
    handle: u32,
    label: &Label,
) -> Result<(), AllocError>
    requires { All (IsOver modules.now) regions.now }
    ensures { OnOk result (ranges.new.items ≡ ranges.old.items ++ option_to_list
        (held_range (platform_of regions.now) (labels_in modules.now) base handle label.now)) }
{
    if !is_held(modules, regions, handle, label) {
        return Ok(());
    }
    Ok(ranges.push(range_in(base, label))?)
}

/// The range of a label in the part of its module that begins at an address. It may end past the part.
fn range_in(base: u64, label: &Label) -> Extent
    ensures { result ≡ range_in base label.now }
{
    Extent {
        start: label.dpa.saturating_sub(base),
        len: label
            .raw_size
            .saturating_sub(base.saturating_sub(label.dpa)),
    }
}
