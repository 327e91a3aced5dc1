//! Where the modules of a region's members stand among the modules, and the index of their labels.

ghost use Rattle.std.specs.Prelude.{◌≡◌, ◌<◌, ◌++◌, IfOk, OnOk, length, map, slice_index_or};
ghost use Rattle.std.specs.List.{Contains};
ghost use Rattle.std.specs.Option.{option_copied};
ghost use Rattle.uuid_index.specs.Labels.{IsIndex, entries_of, entry_at};
ghost use Rattle.region_labels.specs.declared.modules.LoadedModule.{LoadedModule};
ghost use Rattle.region_labels.specs.Modules.{EachOnce, dimm_of, labels_in, module_in};
ghost use Rattle.region_labels.specs.Regions.{AreKnown, AreSeatsOf, handles};

use crate::modules::LoadedModule;
use label_codec::Label;
use region_map::{Member, Region};
use std::alloc::{AllocError, Global};
use uuid_index::{Entry, Index};

/// Where the modules of members stand among the modules, by position.
pub(crate) fn seats_of(
    alloc: Global,
    modules: &[LoadedModule],
    members: &[Member],
) -> Result<Vec<usize>, AllocError>
    requires { AreKnown modules.now members.now }
    ensures { IfOk result (λ seats. AreSeatsOf modules.now members.now seats.items) }
{
    let mut seats = Vec::new(alloc);
    for member in members {
        seats.push(seat_of(modules, member.handle))?;
    }
    Ok(seats)
}

/// Where the module with a device handle stands.
fn seat_of(modules: &[LoadedModule], handle: u32) -> usize
    requires { Contains (map dimm_of modules.now) handle }
    ensures within { result < length modules.now }
    ensures is { (d : LoadedModule) → (slice_index_or modules.now result d).dimm ≡ handle }
{
    for (at, loaded) in modules.iter().enumerate() {
        if loaded.dimm == handle {
            return at;
        }
    }
    unreachable!()
}

/// The index of the labels of a region's modules.
pub(crate) fn index_of(
    alloc: Global,
    modules: &[LoadedModule],
    region: &Region,
    seats: &[usize],
) -> Result<Index, AllocError>
    requires once { EachOnce modules.now }
    requires seats { AreSeatsOf modules.now region.now.members seats.now }
    ensures { IfOk result (λ index. IsIndex (handles region.now) (labels_in modules.now) index.entries) }
{
    let mut entries = Vec::new(alloc);
    for (position, seat) in seats.iter().enumerate() {
        push_entries(&mut entries, position, &modules[*seat])?;
    }
    Ok(Index::of(entries))
}

/// Adds the entries of a module's live labels.
fn push_entries(
    entries: &mut Vec<Entry>,
    position: usize,
    loaded: &LoadedModule,
) -> Result<(), AllocError>
    ensures { OnOk result (entries.new.items ≡ entries.old.items ++ entries_of position (module_in loaded.now)) }
{
    for slot in 0..loaded.slots() {
        push_entry(entries, position, slot, loaded.label(slot))?;
    }
    Ok(())
}

/// Adds the entry of a slot, if a label is live there.
fn push_entry(
    entries: &mut Vec<Entry>,
    position: usize,
    slot: u32,
    label: Option<&Label>,
) -> Result<(), AllocError>
    ensures { OnOk result
        (entries.new.items ≡ entries.old.items ++ entry_at position slot (option_copied label.entry)) }
{
    match label {
        Some(label) => Ok(entries.push(Entry::of(label, position, slot))?),
        None => Ok(()),
    }
}
