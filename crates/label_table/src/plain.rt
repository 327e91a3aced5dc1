//! The definitions as a plain program over modules with few labels. It is slow, and takes no memory.

ghost use Rattle.std.specs.Prelude.{◌≡◌, Some, nat_lt, find, is_some, ◌==◌};
ghost use Rattle.std.specs.List.{list_all, list_any};
ghost use Rattle.std.specs.Option.{option_copied};
ghost use Rattle.label_codec.specs.ModuleLabels.{first, has, is_ready, label_if, number, of_uuid};
ghost use Rattle.label_codec.specs.Flags.{is_read_only};
ghost use Rattle.region_map.specs.declared.platform.Member.{Member};
ghost use Rattle.label_table.specs.Belonging.{region_of};
ghost use Rattle.label_table.specs.Fates.{is_dead, is_unfinished};
ghost use Rattle.label_table.specs.Plain.{IsOnly, labels_in};
ghost use Rattle.label_table.specs.Wholes.{agrees, all_ready, any_label, any_read_only, has_one, has_size, is_doubled};
ghost use Rattle.label_table.specs.Wholes.{is_whole, is_whole_after, label_count, labels_with, leading_label};
ghost use Rattle.label_table.specs.Wholes.{sizes_agree};

use crate::belonging::{belongs, has_uuid, offset_in, region_of};
use label_codec::{AreaKind, Label};
use region_map::{Member, Platform, Region};
use view_types::List;

/// A module with its labels by slot.
#[derive(Drop)]
pub struct ModuleLabels {
    /// The device handle.
    pub handle: u32,
    pub kind: AreaKind,
    /// The live label of each slot.
    pub slots: List<Option<Label>>,
}

impl ModuleLabels {
    ghost use Rattle.label_table.specs.Plain.{IsOnly, module_in};

    /// How many labels of the module have the uuid.
    fn count(&self, uuid: &[u8; 16]) -> usize
        ensures { result ≡ number any_label (of_uuid uuid.now (module_in self.now)) }
    {
        let mut count = 0;
        for slot in self.slots.as_slice() {
            if is_label_with(slot, uuid) {
                count += 1;
            }
        }
        count
    }

    /// The first label of the module with the uuid.
    fn first(&self, uuid: &[u8; 16]) -> Option<&Label>
        ensures { option_copied result ≡ first (of_uuid uuid.now (module_in self.now)) }
    {
        for slot in self.slots.as_slice() {
            if is_label_with(slot, uuid) {
                return slot.as_ref();
            }
        }
        None
    }

    /// How many of them have this size.
    fn count_size(&self, uuid: &[u8; 16], size: u64) -> usize
        ensures { result ≡ number (λ label. label.raw_size == size) (of_uuid uuid.now (module_in self.now)) }
    {
        let mut count = 0;
        for slot in self.slots.as_slice() {
            if is_label_with(slot, uuid) && has_size(slot, size) {
                count += 1;
            }
        }
        count
    }

    /// How many of them are read-only.
    fn count_read_only(&self, uuid: &[u8; 16]) -> usize
        ensures { result ≡ number is_read_only (of_uuid uuid.now (module_in self.now)) }
    {
        let mut count = 0;
        for slot in self.slots.as_slice() {
            if is_label_with(slot, uuid) && is_read_only(slot) {
                count += 1;
            }
        }
        count
    }

    /// The label of the module with the uuid, where there is exactly one.
    fn only(&self, uuid: &[u8; 16]) -> Option<&Label>
        ensures { IsOnly uuid.now (module_in self.now) (option_copied result) }
    {
        if self.count(uuid) == 1 {
            self.first(uuid)
        } else {
            None
        }
    }
}

/// A slot has a label with the uuid.
fn is_label_with(slot: &Option<Label>, uuid: &[u8; 16]) -> bool
    ensures { result ≡ is_some (label_if (has uuid.now) slot.now) }
{
    match slot {
        Some(label) => has_uuid(label, uuid),
        None => false,
    }
}

/// The slot's label has this size.
fn has_size(slot: &Option<Label>, size: u64) -> bool
    ensures { result ≡ is_some (label_if (λ label. label.raw_size == size) slot.now) }
{
    match slot {
        Some(label) => label.raw_size == size,
        None => false,
    }
}

/// The slot's label is read-only.
fn is_read_only(slot: &Option<Label>) -> bool
    ensures { result ≡ is_some (label_if is_read_only slot.now) }
{
    match slot {
        Some(label) => label.is_read_only(),
        None => false,
    }
}

/// The module with a device handle.
fn module_of(modules: &[ModuleLabels], handle: u32) -> Option<&ModuleLabels>
    ensures { option_copied result ≡ find (λ area. area.handle == handle) modules.now }
{
    modules.iter().find(|area| area.handle == handle)
}

/// The area of the module with a device handle is Ready.
fn is_ready(modules: &[ModuleLabels], handle: u32) -> bool
    ensures { result ≡ is_ready (labels_in modules.now handle).kind }
{
    match module_of(modules, handle) {
        Some(area) => area.kind.is_ready(),
        None => false,
    }
}

/// How many labels of the module with a device handle have the uuid.
fn label_count(modules: &[ModuleLabels], handle: u32, uuid: &[u8; 16]) -> usize
    ensures { result ≡ label_count (labels_with uuid.now (labels_in modules.now)) handle }
{
    match module_of(modules, handle) {
        Some(area) => area.count(uuid),
        None => 0,
    }
}

/// The label of the module with a device handle that has the uuid, where there is exactly one.
fn only_label<'a>(modules: &'a [ModuleLabels], handle: u32, uuid: &[u8; 16]) -> Option<&'a Label>
    ensures { IsOnly uuid.now (labels_in modules.now handle) (option_copied result) }
{
    match module_of(modules, handle) {
        Some(area) => area.only(uuid),
        None => None,
    }
}

/// All modules of the region are Ready.
pub fn all_ready(modules: &[ModuleLabels], region: &Region) -> bool
    ensures { result ≡ all_ready region.now (labels_in modules.now) }
{
    region
        .members
        .as_slice()
        .iter()
        .all(|member| is_ready(modules, member.handle))
}

/// The first label of the module with a device handle that has the uuid.
fn first_label<'a>(modules: &'a [ModuleLabels], handle: u32, uuid: &[u8; 16]) -> Option<&'a Label>
    ensures { option_copied result ≡ first (labels_with uuid.now (labels_in modules.now) handle) }
{
    match module_of(modules, handle) {
        Some(area) => area.first(uuid),
        None => None,
    }
}

/// The label of the module at position 0 that has the uuid.
fn leading_label<'a>(
    modules: &'a [ModuleLabels],
    region: &Region,
    uuid: &[u8; 16],
) -> Option<&'a Label>
    ensures { option_copied result ≡ leading_label region.now (labels_with uuid.now (labels_in modules.now)) }
{
    match region.members.as_slice() {
        [] => None,
        [member, ..] => first_label(modules, member.handle, uuid),
    }
}

/// The label belongs to the region, at the offset of another.
fn agrees(region: &Region, leading: &Label, handle: u32, label: &Label) -> bool
    ensures { result ≡ agrees region.now leading.now handle label.now }
{
    belongs(region, handle, label) && offset_in(region, label) == offset_in(region, leading)
}

/// The member's module has one label with the uuid, which agrees with another.
fn has_one(
    modules: &[ModuleLabels],
    region: &Region,
    uuid: &[u8; 16],
    leading: &Label,
    member: &Member,
) -> bool
    ensures { result ≡ has_one region.now leading.now (labels_with uuid.now (labels_in modules.now)) member.now }
{
    match only_label(modules, member.handle, uuid) {
        Some(label) => agrees(region, leading, member.handle, label),
        None => false,
    }
}

/// One label of the module with the uuid has this size.
fn has_one_of_size(modules: &[ModuleLabels], uuid: &[u8; 16], leading: &Label, handle: u32) -> bool
    ensures { result ≡
        (number (λ label. label.raw_size == leading.now.raw_size)
        (labels_with uuid.now (labels_in modules.now) handle) == 1) }
{
    match module_of(modules, handle) {
        Some(area) => area.count_size(uuid, leading.raw_size) == 1,
        None => false,
    }
}

/// Some label of the module with the uuid is read-only.
fn has_read_only(modules: &[ModuleLabels], uuid: &[u8; 16], handle: u32) -> bool
    ensures { result ≡ nat_lt 0 (number is_read_only (labels_with uuid.now (labels_in modules.now) handle)) }
{
    match module_of(modules, handle) {
        Some(area) => area.count_read_only(uuid) > 0,
        None => false,
    }
}

/// Some module of the region has two labels with the uuid or more.
pub fn is_doubled(modules: &[ModuleLabels], region: &Region, uuid: &[u8; 16]) -> bool
    ensures { result ≡ is_doubled (labels_in modules.now) region.now uuid.now }
{
    region
        .members
        .as_slice()
        .iter()
        .any(|member| label_count(modules, member.handle, uuid) > 1)
}

/// Each module of the region has one label with the uuid, which agrees with another.
fn all_have_one(modules: &[ModuleLabels], region: &Region, uuid: &[u8; 16], leading: &Label) -> bool
    ensures { result ≡
        list_all (has_one region.now leading.now (labels_with uuid.now (labels_in modules.now))) region.now.members }
{
    region
        .members
        .as_slice()
        .iter()
        .all(|member| has_one(modules, region, uuid, leading, member))
}

/// One label of each module has the size of another.
fn all_have_size(
    modules: &[ModuleLabels],
    region: &Region,
    uuid: &[u8; 16],
    leading: &Label,
) -> bool
    ensures { result ≡
        list_all (has_size leading.now (labels_with uuid.now (labels_in modules.now))) region.now.members }
{
    region.members.as_slice().iter().all(|member| has_one_of_size(
        modules,
        uuid,
        leading,
        member.handle,
    ))
}

/// Some label with the uuid is read-only.
fn any_read_only(modules: &[ModuleLabels], region: &Region, uuid: &[u8; 16]) -> bool
    ensures { result ≡ any_read_only region.now (labels_with uuid.now (labels_in modules.now)) }
{
    region
        .members
        .as_slice()
        .iter()
        .any(|member| has_read_only(modules, uuid, member.handle))
}

/// All have one length, or the leading label is being changed and none is read-only.
fn sizes_agree(modules: &[ModuleLabels], region: &Region, uuid: &[u8; 16], leading: &Label) -> bool
    ensures { result ≡ sizes_agree region.now leading.now (labels_with uuid.now (labels_in modules.now)) }
{
    let read_only = any_read_only(modules, region, uuid);
    all_have_size(modules, region, uuid, leading) || (leading.is_updating() && !read_only)
}

/// With this label at position 0 the labels with the uuid are a namespace's, whatever the areas are.
fn is_whole_after(
    modules: &[ModuleLabels],
    region: &Region,
    uuid: &[u8; 16],
    leading: &Label,
) -> bool
    ensures { result ≡ is_whole_after region.now (labels_with uuid.now (labels_in modules.now)) (Some leading.now) }
{
    all_have_one(modules, region, uuid, leading) && sizes_agree(modules, region, uuid, leading)
}

/// The uuid is that of a namespace of the region.
pub fn is_whole(modules: &[ModuleLabels], region: &Region, uuid: &[u8; 16]) -> bool
    ensures { result ≡ is_whole (labels_in modules.now) region.now uuid.now }
{
    let leading = leading_label(modules, region, uuid);
    all_ready(modules, region)
        && leading.is_some_and(|leading| is_whole_after(modules, region, uuid, leading))
}

/// The label's region has all its modules, and its uuid is neither whole nor doubled there.
fn is_unfinished(modules: &[ModuleLabels], region: Option<&Region>, uuid: &[u8; 16]) -> bool
    ensures { result ≡ is_unfinished (labels_in modules.now) uuid.now (option_copied region.entry) }
{
    match region {
        Some(region) => {
            let ready = all_ready(modules, region);
            ready && !is_whole(modules, region, uuid) && !is_doubled(modules, region, uuid)
        }
        None => false,
    }
}

/// The label of the module with a device handle is dead.
pub fn is_dead(modules: &[ModuleLabels], platform: &Platform, handle: u32, label: &Label) -> bool
    ensures { result ≡ is_dead platform.now (labels_in modules.now) handle label.now }
{
    let region = region_of(platform, handle, label);
    label.is_updating() && !label.is_read_only() && is_unfinished(modules, region, &label.uuid)
}
