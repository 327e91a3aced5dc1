//! The namespaces of a region that are being changed.

ghost use Rattle.std.specs.Prelude.{◌≡◌, List, None, find, false, nat_lt, ℕ};
ghost use Rattle.std.specs.Option.{option_copied, option_map_or};
ghost use Rattle.label_codec.specs.Flags.{is_updating};
ghost use Rattle.label_codec.specs.ModuleLabels.{number};
ghost use Rattle.label_table.specs.Spaces.{is_pending};
ghost use Rattle.label_table.specs.Wholes.{any_updating};
ghost use Rattle.region_labels.specs.Modules.{labels_in, module_in};
ghost use Rattle.region_labels.specs.Regions.{IsOver};
ghost use Rattle.region_labels.specs.ListedSpaces.{listed_spaces, shows_pending};

use crate::modules::LoadedModule;
use crate::region::RegionLabels;
use crate::tallies::{Sought, tally_of};
use label_codec::Label;
use view_types::Namespace;

/// The first pending namespace of the region, by offset and then by uuid. `None` exactly where none is pending.
pub fn first_pending(modules: &[LoadedModule], kept: &RegionLabels) -> Option<Namespace>
    requires { IsOver modules.now kept.now }
    ensures first { result ≡ find shows_pending (listed_spaces (labels_in modules.now) kept.now.region) }
    ensures none { result ≡ None → (uuid : List ℕ) → is_pending (labels_in modules.now) kept.now.region uuid ≡ false }
{
    // Where no label is marked, no uuid has to be looked up.
    if !has_marked(modules, kept) {
        return None;
    }
    tally_of(modules, kept, &Sought::Pending).first
}

/// A live label of one of the region's modules is marked as being changed.
fn has_marked(modules: &[LoadedModule], kept: &RegionLabels) -> bool
    requires { IsOver modules.now kept.now }
    ensures { result ≡ any_updating kept.now.region (labels_in modules.now) }
{
    for position in 0..kept.region.members.len() {
        if has_marked_label(kept.module_at(modules, position)) {
            return true;
        }
    }
    false
}

/// A live label of the module is marked as being changed.
fn has_marked_label(loaded: &LoadedModule) -> bool
    ensures { result ≡ nat_lt 0 (number is_updating (module_in loaded.now)) }
{
    for slot in 0..loaded.slots() {
        if is_marked(loaded.label(slot)) {
            return true;
        }
    }
    false
}

/// The label of a slot that has one is marked as being changed.
fn is_marked(label: Option<&Label>) -> bool
    ensures { result ≡ option_map_or is_updating (option_copied label.entry) false }
{
    match label {
        Some(label) => label.is_updating(),
        None => false,
    }
}
