//! The namespaces of a region that have a name.

ghost use Rattle.std.specs.Prelude.{◌≡◌, find};
ghost use Rattle.region_labels.specs.Modules.{labels_in};
ghost use Rattle.region_labels.specs.Regions.{IsOver};
ghost use Rattle.region_labels.specs.Named.{named_in};
ghost use Rattle.region_labels.specs.ListedSpaces.{has_name_beside, listed_spaces};

use crate::modules::LoadedModule;
use crate::region::RegionLabels;
use crate::tallies::{Sought, tally_of};
use view_types::Namespace;

/// The namespaces of a region that have a name.
#[derive(Clone, Copy, Debug, PartialEq, Eq)]
pub enum Named {
    None,
    One(Namespace),
    /// Two or more: how many, and the first of them by offset and then by uuid.
    Several { count: u32, first: Namespace },
}

/// The namespaces of the region with this name. Names are compared up to the first zero byte of each.
pub fn namespaces_named(modules: &[LoadedModule], kept: &RegionLabels, name: &[u8; 64]) -> Named
    requires { IsOver modules.now kept.now }
    ensures { result ≡ named_in (labels_in modules.now) kept.now.region name.now }
{
    let named = tally_of(modules, kept, &Sought::Named { name: *name });
    match named.first {
        None => Named::None,
        Some(first) => {
            if named.count == 1 {
                Named::One(first)
            } else {
                Named::Several {
                    count: named.count,
                    first,
                }
            }
        }
    }
}

/// The first namespace of the region with this name and another uuid, by offset and then by uuid. `None` exactly where
/// there is none.
pub fn other_named(
    modules: &[LoadedModule],
    kept: &RegionLabels,
    name: &[u8; 64],
    uuid: &[u8; 16],
) -> Option<Namespace>
    requires { IsOver modules.now kept.now }
    ensures { result ≡
        find (has_name_beside name.now uuid.now) (listed_spaces (labels_in modules.now) kept.now.region) }
{
    let name = *name;
    let uuid = *uuid;
    tally_of(modules, kept, &Sought::NamedBeside { name, uuid }).first
}
