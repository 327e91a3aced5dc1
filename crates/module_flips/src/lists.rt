//! The slots of a module that one flip frees, and the labels there.

ghost use Rattle.std.specs.Prelude.{◌≡◌, ◌+◌, ◌++◌, ◌∷◌, [], ◌<◌, ◌≤◌, false, length, vec_capacity, vec_len};
ghost use Rattle.std.specs.List.{All};
ghost use Rattle.std.specs.Option.{option_map_or, option_to_list};
ghost use Rattle.label_codec.specs.ModuleLabels.{has, number};
ghost use Rattle.region_labels.specs.Fates.{platform_of};
ghost use Rattle.region_labels.specs.Modules.{labels_in, module_in};
ghost use Rattle.region_labels.specs.Regions.{IsOver};
ghost use Rattle.region_labels.specs.SlotLabels.{slot_labels};
ghost use Rattle.module_flips.specs.Flips.{is_used_in};
ghost use Rattle.module_flips.specs.Releases.{has_or_is_dead, released_slots};
ghost use Rattle.module_flips.specs.Sweeps.{is_dead_of, is_unwanted, unwanted_slots};

use label_table::has_uuid;
use region_labels::{LoadedModule, ModuleArea, RegionLabels, SlotLabel, is_dead, slot_label};

/// Lists the slots of a module that have junk or a dead label, where the list has room for all of its slots.
pub(crate) fn list_unwanted(
    slots: &mut Vec<u32>,
    modules: &[LoadedModule],
    regions: &[RegionLabels],
    loaded: &LoadedModule,
)
    requires over { All (IsOver modules.now) regions.now }
    requires room { (module_in loaded.now).slots ≤ vec_capacity slots.old }
    ensures slots { slots.new.items
        ≡ unwanted_slots (is_dead_of (platform_of regions.now) (labels_in modules.now) loaded.now) loaded.now }
    ensures room { vec_capacity slots.old ≤ vec_capacity slots.new }
{
    slots.clear();
    for slot in 0..loaded.slots() {
        if is_unwanted(modules, regions, loaded, slot) {
            push_slot(slots, slot);
        }
    }
}

/// Lists the slots of a module that have junk, a label with the uuid or a dead one, where the list has room for all of
/// its slots.
pub(crate) fn list_released(
    slots: &mut Vec<u32>,
    modules: &[LoadedModule],
    regions: &[RegionLabels],
    loaded: &LoadedModule,
    uuid: &[u8; 16],
)
    requires over { All (IsOver modules.now) regions.now }
    requires room { (module_in loaded.now).slots ≤ vec_capacity slots.old }
    ensures slots { slots.new.items
        ≡ released_slots (platform_of regions.now) (labels_in modules.now) uuid.now loaded.now }
    ensures room { vec_capacity slots.old ≤ vec_capacity slots.new }
{
    slots.clear();
    for slot in 0..loaded.slots() {
        if is_released(modules, regions, loaded, uuid, slot) {
            push_slot(slots, slot);
        }
    }
}

/// Appends a slot for which there is room.
fn push_slot(slots: &mut Vec<u32>, slot: u32)
    requires { vec_len slots.old < vec_capacity slots.old }
    ensures items { slots.new.items ≡ slots.old.items ++ slot ∷ [] }
    ensures room { vec_capacity slots.old ≤ vec_capacity slots.new }
{
    match slots.push(slot) {
        Ok(()) => (),
        Err(_) => unreachable!(),
    }
}

/// A slot in use has no label, or a dead one.
fn is_unwanted(
    modules: &[LoadedModule],
    regions: &[RegionLabels],
    loaded: &LoadedModule,
    slot: u32,
) -> bool
    requires { All (IsOver modules.now) regions.now }
    ensures { result
        ≡ is_unwanted (is_dead_of (platform_of regions.now) (labels_in modules.now) loaded.now) loaded.now slot }
{
    if !is_used(loaded, slot) {
        return false;
    }
    match loaded.label(slot) {
        Some(label) => is_dead(modules, regions, loaded.dimm, label),
        None => true,
    }
}

/// A slot in use has no label, or one with the uuid, or a dead one.
fn is_released(
    modules: &[LoadedModule],
    regions: &[RegionLabels],
    loaded: &LoadedModule,
    uuid: &[u8; 16],
    slot: u32,
) -> bool
    requires { All (IsOver modules.now) regions.now }
    ensures { result
        ≡ is_unwanted (has_or_is_dead (platform_of regions.now) (labels_in modules.now) uuid.now loaded.now)
        loaded.now slot }
{
    if !is_used(loaded, slot) {
        return false;
    }
    match loaded.label(slot) {
        Some(label) => has_uuid(label, uuid) || is_dead(modules, regions, loaded.dimm, label),
        None => true,
    }
}

/// A slot of a module is in use.
fn is_used(loaded: &LoadedModule, slot: u32) -> bool
    ensures { result ≡ is_used_in loaded.now slot }
{
    match &loaded.area {
        ModuleArea::Missing => false,
        ModuleArea::WrongSize { .. } => false,
        ModuleArea::Uninit { .. } => false,
        ModuleArea::Foreign { .. } => false,
        ModuleArea::Ready(area) => area.is_used(slot),
    }
}

/// How many labels of a module have the uuid.
pub(crate) fn count_labels(loaded: &LoadedModule, uuid: &[u8; 16]) -> u32
    ensures { result ≡ number (has uuid.now) (module_in loaded.now) }
{
    let mut count = 0;
    for slot in 0..loaded.slots() {
        if has_label(loaded, slot, uuid) {
            count += 1;
        }
    }
    count
}

/// The label in a slot has the uuid.
fn has_label(loaded: &LoadedModule, slot: u32, uuid: &[u8; 16]) -> bool
    ensures { result ≡ option_map_or (has uuid.now) ((module_in loaded.now).at slot) false }
{
    match loaded.label(slot) {
        Some(label) => has_uuid(label, uuid),
        None => false,
    }
}

/// Lists the labels that are live in some slots of a module, where the list has room for as many.
pub(crate) fn list_labels(labels: &mut Vec<SlotLabel>, loaded: &LoadedModule, slots: &[u32])
    requires { length slots.now ≤ vec_capacity labels.old }
    ensures labels { labels.new.items ≡ slot_labels (module_in loaded.now) slots.now }
    ensures room { vec_capacity labels.old ≤ vec_capacity labels.new }
{
    labels.clear();
    for slot in slots {
        push_label(labels, slot_label(loaded, *slot));
    }
}

/// Appends a label, if there is one, for which there is room.
fn push_label(labels: &mut Vec<SlotLabel>, label: Option<SlotLabel>)
    requires { vec_len labels.old < vec_capacity labels.old }
    ensures items { labels.new.items ≡ labels.old.items ++ option_to_list label }
    ensures few { vec_len labels.new ≤ vec_len labels.old + 1 }
    ensures room { vec_capacity labels.old ≤ vec_capacity labels.new }
{
    let Some(label) = label else {
        return;
    };
    match labels.push(label) {
        Ok(()) => (),
        Err(_) => unreachable!(),
    }
}
