//! The steps as a plain program over modules with few labels. It is slow, and takes no memory.

ghost use Rattle.std.specs.Prelude.{◌≡◌, ◌^◌, ◌<◌, ◌==◌, ◌&&◌, ◌≤◌, find, not};
ghost use Rattle.std.specs.List.{list_any};
ghost use Rattle.std.specs.Option.{option_copied};
ghost use Rattle.label_codec.specs.ModuleLabels.{has, number, one};
ghost use Rattle.label_table.specs.Fates.{is_dead, spare};
ghost use Rattle.label_table.specs.Plain.{labels_in, module_in};
ghost use Rattle.table_steps.specs.Create.{bad_size_in, keeps_uuid, uuid_in_use};
ghost use Rattle.table_steps.specs.Plain.{HasFewModules, IsInitialiseReply};
ghost use Rattle.table_steps.specs.Refusals.{first_below, no_slots_in};

use label_codec::{AreaKind, Label};
use label_table::{ModuleLabels, has_uuid, is_dead};
use region_map::{Member, Platform, Region};
use view_types::{AreaState, Refusal, Reply, Status};

/// What namespaces are aligned to, in bytes of each member's part.
const ALIGNMENT: u64 = 2_097_152;

/// The reply to `init-labels` for a module whose area has room for this many slots.
pub fn initialise(platform: &Platform, modules: &[ModuleLabels], dimm: u32, slots: u32) -> Reply
    ensures { IsInitialiseReply platform.now (labels_in modules.now) dimm slots result }
{
    if !has_module(platform, dimm) {
        return Reply::Refused(Refusal::UnknownDimm { dimm });
    }
    match kind_of(modules, dimm) {
        AreaKind::Uninit => Reply::Initialised { dimm, slots },
        AreaKind::Ready => Reply::Refused(Refusal::AlreadyReady { dimm }),
        AreaKind::Missing => not_ready(dimm, AreaState::Missing),
        AreaKind::WrongSize => not_ready(dimm, AreaState::WrongSize),
        AreaKind::Foreign => not_ready(dimm, AreaState::Foreign),
    }
}

/// A module of the platform has the device handle.
pub fn has_module(platform: &Platform, dimm: u32) -> bool
    ensures { result ≡ list_any (λ handle. handle == dimm) platform.now.modules }
{
    platform
        .modules
        .as_slice()
        .iter()
        .any(|handle| *handle == dimm)
}

fn not_ready(dimm: u32, state: AreaState) -> Reply
    ensures { result ≡ Reply.Refused (Refusal.NotReady (Status.Area dimm state)) }
{
    Reply::Refused(Refusal::NotReady {
        status: Status::Area { dimm, state },
    })
}

/// The module with a device handle.
pub fn module_of(modules: &[ModuleLabels], handle: u32) -> Option<&ModuleLabels>
    ensures { option_copied result ≡ find (λ area. area.handle == handle) modules.now }
{
    modules.iter().find(|area| area.handle == handle)
}

/// What the area of the module with a device handle is.
pub fn kind_of(modules: &[ModuleLabels], handle: u32) -> AreaKind
    ensures { result ≡ (labels_in modules.now handle).kind }
{
    match module_of(modules, handle) {
        Some(area) => area.kind,
        None => AreaKind::Missing,
    }
}

/// 1 for a slot with a label that is not dead.
fn kept_in(
    platform: &Platform,
    modules: &[ModuleLabels],
    handle: u32,
    slot: &Option<Label>,
) -> usize
    ensures count { result ≡
        one (λ label. not (is_dead platform.now (labels_in modules.now) handle label)) slot.now }
    ensures at_most_one { result ≤ 1 }
{
    match slot {
        Some(label) => {
            if is_dead(modules, platform, handle, label) {
                0
            } else {
                1
            }
        }
        None => 0,
    }
}

/// How many labels of a module, which has this handle, are not dead.
fn kept_count(
    platform: &Platform,
    modules: &[ModuleLabels],
    handle: u32,
    area: &ModuleLabels,
) -> usize
    ensures { result ≡
        number (λ label. not (is_dead platform.now (labels_in modules.now) handle label)) (module_in area.now) }
{
    let mut count = 0;
    for slot in area.slots.as_slice() {
        count += kept_in(platform, modules, handle, slot);
    }
    count
}

/// How many slots of the module with a device handle are left for new labels.
pub fn spare(platform: &Platform, modules: &[ModuleLabels], handle: u32) -> usize
    ensures { result ≡ spare platform.now (labels_in modules.now) handle }
{
    match module_of(modules, handle) {
        Some(area) => area
            .slots
            .len()
            .saturating_sub(kept_count(platform, modules, handle, area)),
        None => 0,
    }
}

/// The first member, by position, whose module has fewer spare slots.
fn first_below<'a>(
    platform: &Platform,
    modules: &[ModuleLabels],
    least: usize,
    region: &'a Region,
) -> Option<&'a Member>
    ensures { option_copied result ≡ first_below platform.now (labels_in modules.now) least region.now }
{
    region
        .members
        .as_slice()
        .iter()
        .find(|member| spare(platform, modules, member.handle) < least)
}

/// Why a command that needs so many spare slots of each module is refused for want of them.
pub fn no_slots(
    platform: &Platform,
    modules: &[ModuleLabels],
    least: usize,
    region: &Region,
) -> Option<Refusal>
    requires { least < 2 ^ 32 }
    ensures { result ≡ no_slots_in platform.now (labels_in modules.now) least region.now }
{
    match first_below(platform, modules, least, region) {
        Some(member) => Some(Refusal::NoSlots {
            dimm: member.handle,
            spare: spare(platform, modules, member.handle) as u32,
        }),
        None => None,
    }
}

/// 1 for a slot with a label that has the uuid and is not dead.
fn uuid_in(
    platform: &Platform,
    modules: &[ModuleLabels],
    uuid: &[u8; 16],
    handle: u32,
    slot: &Option<Label>,
) -> usize
    ensures count { result ≡ one
        (λ label. has uuid.now label && not (is_dead platform.now (labels_in modules.now) handle label)) slot.now }
    ensures at_most_one { result ≤ 1 }
{
    match slot {
        Some(label) => {
            if has_uuid(label, uuid) && !is_dead(modules, platform, handle, label) {
                1
            } else {
                0
            }
        }
        None => 0,
    }
}

/// How many labels of a module, which has this handle, have the uuid and are not dead.
fn uuid_count(
    platform: &Platform,
    modules: &[ModuleLabels],
    uuid: &[u8; 16],
    handle: u32,
    area: &ModuleLabels,
) -> usize
    ensures { result ≡ number
        (λ label. has uuid.now label && not (is_dead platform.now (labels_in modules.now) handle label))
        (module_in area.now) }
{
    let mut count = 0;
    for slot in area.slots.as_slice() {
        count += uuid_in(platform, modules, uuid, handle, slot);
    }
    count
}

/// The module with a device handle has a label with the uuid that is not dead.
fn keeps_uuid(platform: &Platform, modules: &[ModuleLabels], uuid: &[u8; 16], handle: u32) -> bool
    ensures { result ≡ keeps_uuid platform.now (labels_in modules.now) uuid.now handle }
{
    match module_of(modules, handle) {
        Some(area) => uuid_count(platform, modules, uuid, handle, area) > 0,
        None => false,
    }
}

/// Why no namespace with the uuid can be made: a module has a label with it.
pub fn uuid_in_use(
    platform: &Platform,
    modules: &[ModuleLabels],
    uuid: &[u8; 16],
) -> Option<Refusal>
    ensures { result ≡ uuid_in_use platform.now (labels_in modules.now) uuid.now }
{
    platform
        .modules
        .as_slice()
        .iter()
        .find(|handle| keeps_uuid(platform, modules, uuid, **handle))
        .map(|handle| Refusal::UuidInUse { dimm: *handle })
}

/// Why no namespace of the size can be made in the region: a size is a multiple of 2 MiB of each module.
pub fn bad_size(size: u64, region: &Region) -> Option<Refusal>
    requires { HasFewModules region.now }
    ensures { result ≡ bad_size_in size region.now }
{
    let unit = region.members.len() as u64 * ALIGNMENT;
    if size == 0 || size % unit != 0 {
        Some(Refusal::BadSize { unit })
    } else {
        None
    }
}
