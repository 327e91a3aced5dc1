//! The held labels of a module, and its spare slots.

ghost use Rattle.std.specs.Prelude.{◌≡◌, ◌++◌, IfOk, OnOk};
ghost use Rattle.std.specs.List.{All};
ghost use Rattle.std.specs.Option.{option_copied, option_map, option_map_or, option_to_list};
ghost use Rattle.label_table.specs.Belonging.{region_of};
ghost use Rattle.label_table.specs.Fates.{is_dead};
ghost use Rattle.region_labels.specs.Fates.{platform_of};
ghost use Rattle.region_labels.specs.Held.{AreHeldIn, held_at, held_key, held_of, is_kept_in, region_index, spare_in};
ghost use Rattle.region_labels.specs.Held.{held_in};
ghost use Rattle.region_labels.specs.Modules.{labels_in};
ghost use Rattle.region_labels.specs.Regions.{IsOver};

use crate::fates::{is_dead, is_held, region_of};
use crate::modules::LoadedModule;
use crate::region::RegionLabels;
use label_codec::Label;
use std::alloc::{AllocError, Global};
use view_types::Held;

/// What held labels are ordered by.
#[derive(Clone, Copy, Debug, PartialEq, Eq, PartialOrd, Ord)]
pub(crate) struct HeldKey {
    pub(crate) dpa: u64,
    pub(crate) size: u64,
    pub(crate) uuid: [u8; 16],
    pub(crate) local: bool,
    pub(crate) read_only: bool,
    pub(crate) updating: bool,
    pub(crate) region: Option<u16>,
}

/// The held labels of a module, by address, size, uuid, flags and region.
pub fn held_labels(
    alloc: Global,
    modules: &[LoadedModule],
    regions: &[RegionLabels],
    loaded: &LoadedModule,
) -> Result<Vec<Held>, AllocError>
    requires { All (IsOver modules.now) regions.now }
    ensures { IfOk result
        (λ held. AreHeldIn (platform_of regions.now) (labels_in modules.now) loaded.now held.items) }
{
    let mut held = held_by_slot(alloc, modules, regions, loaded)?;
    held.sort_unstable_by_key(|label| key_of(label));
    Ok(held)
}

fn key_of(held: &Held) -> HeldKey
    ensures { result ≡ held_key held.now }
{
    HeldKey {
        dpa: held.dpa,
        size: held.size,
        uuid: held.uuid,
        local: held.local,
        read_only: held.read_only,
        updating: held.updating,
        region: held.region,
    }
}

/// The held labels of a module, in the order of their slots.
fn held_by_slot(
    alloc: Global,
    modules: &[LoadedModule],
    regions: &[RegionLabels],
    loaded: &LoadedModule,
) -> Result<Vec<Held>, AllocError>
    requires { All (IsOver modules.now) regions.now }
    ensures { IfOk result
        (λ held. held.items ≡ held_in (platform_of regions.now) (labels_in modules.now) loaded.now) }
{
    let mut held = Vec::new(alloc);
    for slot in 0..loaded.slots() {
        push_held(&mut held, modules, regions, loaded.dimm, loaded.label(slot))?;
    }
    Ok(held)
}

/// Adds a label of the module with this device handle, if it is held.
fn push_held(
    held: &mut Vec<Held>,
    modules: &[LoadedModule],
    regions: &[RegionLabels],
    handle: u32,
    label: Option<&Label>,
) -> Result<(), AllocError>
    requires { All (IsOver modules.now) regions.now }
    ensures { OnOk result (held.new.items ≡ held.old.items ++ option_to_list
        (held_at (platform_of regions.now) (labels_in modules.now) handle (option_copied label.entry))) }
{
    let Some(label) = label else {
        return Ok(());
    };
    if !is_held(modules, regions, handle, label) {
        return Ok(());
    }
    Ok(held.push(held_of(regions, handle, label))?)
}

/// How a held label is shown.
fn held_of(regions: &[RegionLabels], handle: u32, label: &Label) -> Held
    ensures { result ≡ held_of (platform_of regions.now) handle label.now }
{
    Held {
        uuid: label.uuid,
        dpa: label.dpa,
        size: label.raw_size,
        local: label.is_local(),
        read_only: label.is_read_only(),
        updating: label.is_updating(),
        region: index_of_region(regions, handle, label),
    }
}

/// The index of the region that a label belongs to.
fn index_of_region(regions: &[RegionLabels], handle: u32, label: &Label) -> Option<u16>
    ensures { result ≡ region_index (region_of (platform_of regions.now) handle label.now) }
{
    match region_of(regions, handle, label) {
        Some(kept) => Some(kept.region.index),
        None => None,
    }
}

/// How many slots of a module are left for new labels: those without a label that isn't dead.
pub fn spare(modules: &[LoadedModule], regions: &[RegionLabels], loaded: &LoadedModule) -> u32
    requires { All (IsOver modules.now) regions.now }
    ensures { result ≡ spare_in (platform_of regions.now) (labels_in modules.now) loaded.now }
{
    let mut spare = loaded.slots();
    for slot in 0..loaded.slots() {
        if is_kept(modules, regions, loaded, slot) {
            spare -= 1;
        }
    }
    spare
}

/// A label stands in a slot that isn't dead.
fn is_kept(
    modules: &[LoadedModule],
    regions: &[RegionLabels],
    loaded: &LoadedModule,
    slot: u32,
) -> bool
    requires { All (IsOver modules.now) regions.now }
    ensures { result ≡ is_kept_in (platform_of regions.now) (labels_in modules.now) loaded.now slot }
{
    match loaded.label(slot) {
        Some(label) => !is_dead(modules, regions, loaded.dimm, label),
        None => false,
    }
}
