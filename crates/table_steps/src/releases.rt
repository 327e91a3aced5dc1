//! What refuses a release of held labels, and how many it gives up, as a plain program over modules with few labels. It
//! is slow, and takes no memory.

ghost use Rattle.std.specs.Prelude.{◌≡◌, ◌&&◌, ◌≤◌, ◌∷◌, [], false, find, not};
ghost use Rattle.std.specs.Option.{option_copied};
ghost use Rattle.label_codec.specs.ModuleLabels.{has, is_ready, number, one};
ghost use Rattle.region_map.specs.declared.platform.Member.{Member};
ghost use Rattle.label_table.specs.Belonging.{belongs};
ghost use Rattle.label_table.specs.Fates.{held_count, is_held, is_of_namespace};
ghost use Rattle.label_table.specs.Plain.{labels_in, module_in};
ghost use Rattle.label_table.specs.Statuses.{status};
ghost use Rattle.label_table.specs.Wholes.{all_ready};
ghost use Rattle.table_steps.specs.Refusals.{area_by, area_not_ready, first_of, not_ready_by, unknown_dimm};
ghost use Rattle.table_steps.specs.Release.{held_fixed, holds_of, is_fixed, lacks_area, not_held, region_lacks_area};
ghost use Rattle.table_steps.specs.Release.{release_refusals};

use crate::plain::{has_module, kind_of, module_of};
use label_codec::{AreaKind, Label};
use label_table::{ModuleLabels, all_ready, belongs, has_uuid, is_dead, is_whole, region_of};
use region_map::{Member, Platform, Region};
use view_types::{AreaState, Refusal, Status};

/// Why the labels with a uuid that a module holds cannot be given up.
pub fn release_refusal(
    platform: &Platform,
    modules: &[ModuleLabels],
    dimm: u32,
    uuid: &[u8; 16],
) -> Option<Refusal>
    ensures { result ≡ first_of (release_refusals platform.now (labels_in modules.now) dimm uuid.now) }
{
    if !has_module(platform, dimm) {
        return Some(Refusal::UnknownDimm { dimm });
    }
    area_not_ready(modules, dimm).or(held_refusal(platform, modules, dimm, uuid))
}

/// Why the area of the module with a device handle holds nothing that can be given up: it is not Ready.
fn area_not_ready(modules: &[ModuleLabels], dimm: u32) -> Option<Refusal>
    ensures { result ≡ area_not_ready (labels_in modules.now) dimm }
{
    area_refusal(dimm, kind_of(modules, dimm))
}

/// The refusal by a module whose area is of this kind.
fn area_refusal(dimm: u32, kind: AreaKind) -> Option<Refusal>
    ensures { result ≡ area_by dimm kind }
{
    match kind {
        AreaKind::Ready => None,
        AreaKind::Missing => Some(not_ready(dimm, AreaState::Missing)),
        AreaKind::WrongSize => Some(not_ready(dimm, AreaState::WrongSize)),
        AreaKind::Uninit => Some(not_ready(dimm, AreaState::Uninit)),
        AreaKind::Foreign => Some(not_ready(dimm, AreaState::Foreign)),
    }
}

fn not_ready(dimm: u32, state: AreaState) -> Refusal
    ensures { result ≡ Refusal.NotReady (Status.Area dimm state) }
{
    Refusal::NotReady {
        status: Status::Area { dimm, state },
    }
}

/// Why the held labels with a uuid of a module with a Ready area cannot be given up.
fn held_refusal(
    platform: &Platform,
    modules: &[ModuleLabels],
    dimm: u32,
    uuid: &[u8; 16],
) -> Option<Refusal>
    ensures { result ≡ first_of
        (not_held platform.now (labels_in modules.now) dimm uuid.now
        ∷ region_lacks_area platform.now (labels_in modules.now) dimm uuid.now
        ∷ held_fixed platform.now (labels_in modules.now) dimm uuid.now
        ∷ []) }
{
    let lacks = region_lacks_area(platform, modules, dimm, uuid);
    not_held(platform, modules, dimm, uuid).or(lacks.or(held_fixed(platform, modules, dimm, uuid)))
}

/// The module holds no label with the uuid.
pub fn not_held(
    platform: &Platform,
    modules: &[ModuleLabels],
    dimm: u32,
    uuid: &[u8; 16],
) -> Option<Refusal>
    ensures { result ≡ not_held platform.now (labels_in modules.now) dimm uuid.now }
{
    if held_count(platform, modules, dimm, uuid) == 0 {
        Some(Refusal::NotHeld)
    } else {
        None
    }
}

/// One of the labels belongs to a region with a module whose area is not Ready. Of several such regions it is that of
/// the least index.
pub fn region_lacks_area(
    platform: &Platform,
    modules: &[ModuleLabels],
    dimm: u32,
    uuid: &[u8; 16],
) -> Option<Refusal>
    ensures { result ≡ region_lacks_area platform.now (labels_in modules.now) dimm uuid.now }
{
    match first_lacking(platform, modules, dimm, uuid) {
        Some(region) => region_refusal(modules, region),
        None => None,
    }
}

/// One of the labels is read-only, or not of an interleave set.
pub fn held_fixed(
    platform: &Platform,
    modules: &[ModuleLabels],
    dimm: u32,
    uuid: &[u8; 16],
) -> Option<Refusal>
    ensures { result ≡ held_fixed platform.now (labels_in modules.now) dimm uuid.now }
{
    if fixed_count(platform, modules, dimm, uuid) > 0 {
        Some(Refusal::ReadOnly { uuid: *uuid })
    } else {
        None
    }
}

/// The first region that one of the labels belongs to and that has a module whose area is not Ready.
fn first_lacking<'a>(
    platform: &'a Platform,
    modules: &[ModuleLabels],
    dimm: u32,
    uuid: &[u8; 16],
) -> Option<&'a Region>
    ensures { option_copied result
        ≡ find (lacks_area platform.now (labels_in modules.now) dimm uuid.now) platform.now.regions }
{
    platform
        .regions
        .as_slice()
        .iter()
        .find(|region| lacks_area(platform, modules, dimm, uuid, region))
}

fn lacks_area(
    platform: &Platform,
    modules: &[ModuleLabels],
    dimm: u32,
    uuid: &[u8; 16],
    region: &Region,
) -> bool
    ensures { result ≡ lacks_area platform.now (labels_in modules.now) dimm uuid.now region.now }
{
    region_count(platform, modules, dimm, uuid, region) > 0 && !all_ready(modules, region)
}

/// The first member whose module's area is not Ready.
fn first_unready<'a>(modules: &[ModuleLabels], region: &'a Region) -> Option<&'a Member>
    ensures { option_copied result
        ≡ find (λ (member : Member). not (is_ready (labels_in modules.now member.handle).kind)) region.now.members }
{
    region
        .members
        .as_slice()
        .iter()
        .find(|member| !kind_of(modules, member.handle).is_ready())
}

/// The refusal by a region with a module whose area is not Ready.
fn region_refusal(modules: &[ModuleLabels], region: &Region) -> Option<Refusal>
    requires { all_ready region.now (labels_in modules.now) ≡ false }
    ensures { result ≡ not_ready_by (status (labels_in modules.now) region.now) }
{
    if region.rule.is_some() {
        return None;
    }
    match first_unready(modules, region) {
        Some(member) => area_refusal(member.handle, kind_of(modules, member.handle)),
        None => None,
    }
}

/// How many labels with the uuid the module holds.
pub fn held_count(
    platform: &Platform,
    modules: &[ModuleLabels],
    dimm: u32,
    uuid: &[u8; 16],
) -> usize
    ensures { result ≡ held_count platform.now (labels_in modules.now) dimm (has uuid.now) }
{
    match module_of(modules, dimm) {
        Some(area) => count_held(platform, modules, uuid, dimm, area),
        None => 0,
    }
}

/// How many labels with the uuid the module holds that belong to the region.
fn region_count(
    platform: &Platform,
    modules: &[ModuleLabels],
    dimm: u32,
    uuid: &[u8; 16],
    region: &Region,
) -> usize
    ensures { result ≡ held_count platform.now (labels_in modules.now) dimm
        (λ label. has uuid.now label && belongs region.now dimm label) }
{
    match module_of(modules, dimm) {
        Some(area) => count_of_region(platform, modules, uuid, dimm, area, region),
        None => 0,
    }
}

/// How many labels with the uuid the module holds that are read-only, or not of an interleave set.
fn fixed_count(platform: &Platform, modules: &[ModuleLabels], dimm: u32, uuid: &[u8; 16]) -> usize
    ensures { result ≡ held_count platform.now (labels_in modules.now) dimm (is_fixed uuid.now) }
{
    match module_of(modules, dimm) {
        Some(area) => count_fixed(platform, modules, uuid, dimm, area),
        None => 0,
    }
}

fn count_held(
    platform: &Platform,
    modules: &[ModuleLabels],
    uuid: &[u8; 16],
    handle: u32,
    area: &ModuleLabels,
) -> usize
    ensures { result ≡ number
        (λ label. is_held platform.now (labels_in modules.now) handle label && has uuid.now label)
        (module_in area.now) }
{
    let mut count = 0;
    for slot in area.slots.as_slice() {
        count += held_in(platform, modules, uuid, handle, slot);
    }
    count
}

fn count_of_region(
    platform: &Platform,
    modules: &[ModuleLabels],
    uuid: &[u8; 16],
    handle: u32,
    area: &ModuleLabels,
    region: &Region,
) -> usize
    ensures { result ≡ number
        (λ label. is_held platform.now (labels_in modules.now) handle label
        && (has uuid.now label && belongs region.now handle label)) (module_in area.now) }
{
    let mut count = 0;
    for slot in area.slots.as_slice() {
        count += held_of_region_in(platform, modules, uuid, handle, slot, region);
    }
    count
}

fn count_fixed(
    platform: &Platform,
    modules: &[ModuleLabels],
    uuid: &[u8; 16],
    handle: u32,
    area: &ModuleLabels,
) -> usize
    ensures { result ≡ number
        (λ label. is_held platform.now (labels_in modules.now) handle label && is_fixed uuid.now label)
        (module_in area.now) }
{
    let mut count = 0;
    for slot in area.slots.as_slice() {
        count += held_fixed_in(platform, modules, uuid, handle, slot);
    }
    count
}

/// 1 for a slot with a held label that has the uuid.
fn held_in(
    platform: &Platform,
    modules: &[ModuleLabels],
    uuid: &[u8; 16],
    handle: u32,
    slot: &Option<Label>,
) -> usize
    ensures count { result ≡ one
        (λ label. is_held platform.now (labels_in modules.now) handle label && has uuid.now label) slot.now }
    ensures at_most_one { result ≤ 1 }
{
    match slot {
        Some(label) => {
            if is_held(platform, modules, handle, label) && has_uuid(label, uuid) {
                1
            } else {
                0
            }
        }
        None => 0,
    }
}

/// 1 for a slot with a held label that has the uuid and belongs to the region.
fn held_of_region_in(
    platform: &Platform,
    modules: &[ModuleLabels],
    uuid: &[u8; 16],
    handle: u32,
    slot: &Option<Label>,
    region: &Region,
) -> usize
    ensures count { result ≡ one
        (λ label. is_held platform.now (labels_in modules.now) handle label
        && (has uuid.now label && belongs region.now handle label)) slot.now }
    ensures at_most_one { result ≤ 1 }
{
    match slot {
        Some(label) => {
            let mine = has_uuid(label, uuid) && belongs(region, handle, label);
            if is_held(platform, modules, handle, label) && mine {
                1
            } else {
                0
            }
        }
        None => 0,
    }
}

/// 1 for a slot with a held label that has the uuid and is not to be given up.
fn held_fixed_in(
    platform: &Platform,
    modules: &[ModuleLabels],
    uuid: &[u8; 16],
    handle: u32,
    slot: &Option<Label>,
) -> usize
    ensures count { result ≡ one
        (λ label. is_held platform.now (labels_in modules.now) handle label && is_fixed uuid.now label) slot.now }
    ensures at_most_one { result ≤ 1 }
{
    match slot {
        Some(label) => {
            if is_held(platform, modules, handle, label) && is_fixed(label, uuid) {
                1
            } else {
                0
            }
        }
        None => 0,
    }
}

/// The label has the uuid, and is read-only or not of an interleave set.
fn is_fixed(label: &Label, uuid: &[u8; 16]) -> bool
    ensures { result ≡ is_fixed uuid.now label.now }
{
    let fixed = label.is_read_only() || label.is_local();
    has_uuid(label, uuid) && fixed
}

/// A label of the module with a device handle is held: it is neither dead nor one of a namespace.
pub fn is_held(platform: &Platform, modules: &[ModuleLabels], handle: u32, label: &Label) -> bool
    ensures { result ≡ is_held platform.now (labels_in modules.now) handle label.now }
{
    !is_dead(modules, platform, handle, label) && !is_of_namespace(platform, modules, handle, label)
}

fn is_of_namespace(
    platform: &Platform,
    modules: &[ModuleLabels],
    handle: u32,
    label: &Label,
) -> bool
    ensures { result ≡ is_of_namespace platform.now (labels_in modules.now) handle label.now }
{
    match region_of(platform, handle, label) {
        Some(region) => is_whole(modules, region, &label.uuid),
        None => false,
    }
}
