//! The ranges of namespaces, and the held labels that reach into them.

ghost use Rattle.std.specs.Prelude.{◌≡◌, false, nat_lt};
ghost use Rattle.std.specs.List.{All};
ghost use Rattle.std.specs.Option.{option_copied, option_map_or};
ghost use Rattle.label_codec.specs.ModuleLabels.{number};
ghost use Rattle.region_labels.specs.Fates.{platform_of};
ghost use Rattle.region_labels.specs.Modules.{labels_in, module_in};
ghost use Rattle.region_labels.specs.Regions.{IsOver};
ghost use Rattle.region_labels.specs.LoneRanges.{holds_part, is_reached, lone_range, reaches};

use crate::fates::is_held;
use crate::modules::LoadedModule;
use crate::region::RegionLabels;
use label_codec::Label;
use view_types::Extent;

/// The range of the namespace of the region with this uuid, in bytes of each member's part, where no held label of the
/// region's modules reaches into it. `None` exactly where there is no such namespace, or where one does.
pub fn lone_range(
    modules: &[LoadedModule],
    regions: &[RegionLabels],
    kept: &RegionLabels,
    uuid: &[u8; 16],
) -> Option<Extent>
    requires regions { All (IsOver modules.now) regions.now }
    requires over { IsOver modules.now kept.now }
    ensures { result ≡
        lone_range (platform_of regions.now) (labels_in modules.now) kept.now.region uuid.now }
{
    let space = kept.namespace(modules, uuid)?;
    let range = Extent {
        start: space.offset,
        len: space.length,
    };
    if is_reached(modules, regions, kept, &range) {
        None
    } else {
        Some(range)
    }
}

/// A held label of one of the region's modules reaches into a range of the members' parts.
fn is_reached(
    modules: &[LoadedModule],
    regions: &[RegionLabels],
    kept: &RegionLabels,
    range: &Extent,
) -> bool
    requires regions { All (IsOver modules.now) regions.now }
    requires over { IsOver modules.now kept.now }
    ensures { result ≡
        is_reached (platform_of regions.now) (labels_in modules.now) kept.now.region range.now }
{
    for position in 0..kept.region.members.len() {
        let base = kept.region.members.as_slice()[position].dpa_base;
        let loaded = kept.module_at(modules, position);
        if is_reached_from(modules, regions, loaded, base, range) {
            return true;
        }
    }
    false
}

/// A held label of the module reaches into a range of the part that begins at an address.
fn is_reached_from(
    modules: &[LoadedModule],
    regions: &[RegionLabels],
    loaded: &LoadedModule,
    base: u64,
    range: &Extent,
) -> bool
    requires { All (IsOver modules.now) regions.now }
    ensures { result ≡ nat_lt 0 (number (holds_part (platform_of regions.now) (labels_in modules.now)
        loaded.now.dimm base range.now) (module_in loaded.now)) }
{
    for slot in 0..loaded.slots() {
        if holds_part(
            modules,
            regions,
            loaded.dimm,
            loaded.label(slot),
            base,
            range,
        ) {
            return true;
        }
    }
    false
}

/// The label of a slot that has one is held, and reaches into the range.
fn holds_part(
    modules: &[LoadedModule],
    regions: &[RegionLabels],
    handle: u32,
    label: Option<&Label>,
    base: u64,
    range: &Extent,
) -> bool
    requires { All (IsOver modules.now) regions.now }
    ensures { result ≡ option_map_or
        (holds_part (platform_of regions.now) (labels_in modules.now) handle base range.now)
        (option_copied label.entry) false }
{
    match label {
        // Most labels don't reach there, so that their fate need not be known.
        Some(label) => reaches(base, range, label) && is_held(modules, regions, handle, label),
        None => false,
    }
}

/// A label's range has an address of a range of the part that begins at `base`, which is not empty.
fn reaches(base: u64, range: &Extent, label: &Label) -> bool
    ensures { result ≡ reaches base range.now label.now }
{
    let start = u128::from(base) + u128::from(range.start);
    let end = start + u128::from(range.len);
    let from = u128::from(label.dpa);
    let to = from + u128::from(label.raw_size);
    label.raw_size > 0 && from < end && start < to
}
