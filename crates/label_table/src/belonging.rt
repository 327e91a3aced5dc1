//! Which labels belong to a region.

ghost use Rattle.std.specs.Prelude.{◌≡◌};
ghost use Rattle.std.specs.Option.{option_copied};
ghost use Rattle.label_codec.specs.ModuleLabels.{has};
ghost use Rattle.label_table.specs.Belonging.{belongs, is_persistent, is_shared_range, lies_within, member_at};
ghost use Rattle.label_table.specs.Belonging.{names_set, offset_in, region_of};

use label_codec::Label;
use region_map::{Member, Platform, Region};
use view_types::PERSISTENT_MEMORY;

/// The label has this uuid.
pub fn has_uuid(label: &Label, uuid: &[u8; 16]) -> bool
    ensures { result ≡ has uuid.now label.now }
{
    *uuid == label.uuid
}

/// The label of the module with this device handle belongs to the region: it names the region's interleave set and the
/// module's position there, and its range lies in the module's part of the region.
pub fn belongs(region: &Region, handle: u32, label: &Label) -> bool
    ensures { result ≡ belongs region.now handle label.now }
{
    let Some(member) = region.members.get(usize::from(label.position)) else {
        return false;
    };
    names_set(region, member, handle, label) && is_shared_range(label) && lies_within(member, label)
}

/// The region that a label of the module with this device handle belongs to.
pub fn region_of<'a>(platform: &'a Platform, handle: u32, label: &Label) -> Option<&'a Region>
    ensures { option_copied result ≡ region_of platform.now handle label.now }
{
    platform
        .regions
        .as_slice()
        .iter()
        .find(|region| belongs(region, handle, label))
}

/// How far into its member's part of the module a label's range begins, in bytes. 0 where it begins before the part.
pub fn offset_in(region: &Region, label: &Label) -> u64
    ensures { result ≡ offset_in region.now label.now }
{
    label.dpa.saturating_sub(part_start(region, label))
}

/// The DPA at which the part of the member at the label's position begins.
fn part_start(region: &Region, label: &Label) -> u64
    ensures { result ≡ (member_at region.now label.now.position).dpa_base }
{
    match region.members.get(usize::from(label.position)) {
        Some(member) => member.dpa_base,
        None => 0,
    }
}

fn names_set(region: &Region, member: &Member, handle: u32, label: &Label) -> bool
    requires { member.now ≡ member_at region.now label.now.position }
    ensures { result ≡ names_set region.now handle label.now }
{
    member.handle == handle
        && label.cookie == region.cookie
        && usize::from(label.nlabel) == region.members.len()
}

fn is_persistent(label: &Label) -> bool
    ensures { result ≡ is_persistent label.now }
{
    label.type_guid == PERSISTENT_MEMORY
}

fn is_shared_range(label: &Label) -> bool
    ensures { result ≡ is_shared_range label.now }
{
    let local = label.is_local();
    is_persistent(label) && !local && label.raw_size > 0
}

fn lies_within(member: &Member, label: &Label) -> bool
    ensures { result ≡ lies_within member.now label.now }
{
    label.dpa >= member.dpa_base
        && label.raw_size <= member.size
        && label.dpa - member.dpa_base <= member.size - label.raw_size
}
