//! Which module has a uuid.

ghost use Rattle.std.specs.Prelude.{◌≡◌, false, min};
ghost use Rattle.std.specs.List.{All};
ghost use Rattle.std.specs.Option.{option_copied, option_map_or};
ghost use Rattle.region_labels.specs.Fates.{platform_of};
ghost use Rattle.region_labels.specs.Modules.{labels_in};
ghost use Rattle.region_labels.specs.Regions.{IsOver};
ghost use Rattle.region_labels.specs.Holders.{IsHolder, has_uuid, keeps_uuid};

use crate::fates::is_dead;
use crate::modules::LoadedModule;
use crate::region::RegionLabels;
use label_codec::Label;

/// The least device handle of the Ready modules that have a live label with this uuid that is not dead, in whatever
/// region, or in none. `None` exactly where no module has one.
pub fn holder_of(modules: &[LoadedModule], regions: &[RegionLabels], uuid: &[u8; 16]) -> Option<u32>
    requires { All (IsOver modules.now) regions.now }
    ensures { IsHolder (platform_of regions.now) (labels_in modules.now) uuid.now modules.now result }
{
    let mut least = None;
    for loaded in modules {
        if has_uuid(modules, regions, loaded, uuid) {
            least = Some(lesser(least, loaded.dimm));
        }
    }
    least
}

fn lesser(least: Option<u32>, handle: u32) -> u32
    ensures { result ≡ option_map_or (λ other. min other handle) least handle }
{
    match least {
        Some(other) => other.min(handle),
        None => handle,
    }
}

/// A live label of the module has the uuid, and is not dead.
fn has_uuid(
    modules: &[LoadedModule],
    regions: &[RegionLabels],
    loaded: &LoadedModule,
    uuid: &[u8; 16],
) -> bool
    requires { All (IsOver modules.now) regions.now }
    ensures { result ≡ has_uuid (platform_of regions.now) (labels_in modules.now) uuid.now loaded.now }
{
    for slot in 0..loaded.slots() {
        if keeps_uuid(modules, regions, loaded.dimm, loaded.label(slot), uuid) {
            return true;
        }
    }
    false
}

/// A label of the module with this device handle has the uuid, and is not dead.
fn keeps_uuid(
    modules: &[LoadedModule],
    regions: &[RegionLabels],
    handle: u32,
    label: Option<&Label>,
    uuid: &[u8; 16],
) -> bool
    requires { All (IsOver modules.now) regions.now }
    ensures { result ≡ option_map_or
        (keeps_uuid (platform_of regions.now) (labels_in modules.now) uuid.now handle)
        (option_copied label.entry) false }
{
    match label {
        Some(label) => label.uuid == *uuid && !is_dead(modules, regions, handle, label),
        None => false,
    }
}
