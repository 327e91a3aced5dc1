//! A region of two ways, and the labels of its modules.

ghost use Rattle.std.specs.Prelude.{◌≡◌, IfOk};
ghost use Rattle.table_steps.specs.Plain.{HasFewModules};

use label_codec::{AreaKind, Label};
use label_table::ModuleLabels;
use region_map::{Member, Platform, Region};
use std::alloc::AllocError;
use view_types::{List, PERSISTENT_MEMORY};

/// The uuid of the labels.
pub(crate) const UUID: [u8; 16] = [0x0f; 16];

/// Where each module's part of the region begins.
const BASE: u64 = 4_096;

/// A part of 64 MiB of a module, from an address on.
pub(crate) fn member(handle: u32, dpa_base: u64) -> Member
    ensures { result.handle ≡ handle }
{
    Member {
        handle,
        dpa_base,
        size: 67_108_864,
        region_offset: 0,
        interleave: 1,
        ways: 2,
        serial: 1,
        vendor: 1,
        date: 0,
        location: 0,
    }
}

/// A region of 128 MiB over the modules 0x1 and 0x101.
pub(crate) fn region(rt: &HostRuntime) -> Result<Region, AllocError>
    ensures { IfOk result HasFewModules }
{
    let mut members = List::new(rt.alloc());
    members.push(member(0x1, BASE))?;
    members.push(member(0x101, BASE))?;
    Ok(Region {
        index: 1,
        spa: 0,
        length: 134_217_728,
        rule: None,
        members,
        cookie: 7,
    })
}

/// The platform of that region.
pub(crate) fn platform(rt: &HostRuntime) -> Result<Platform, AllocError> {
    let mut regions = List::new(rt.alloc());
    regions.push(region(rt)?)?;
    let mut modules = List::new(rt.alloc());
    modules.push(0x1)?;
    modules.push(0x101)?;
    Ok(Platform {
        regions,
        modules,
        tables: List::new(rt.alloc()),
    })
}

/// The label of a namespace of 4 MiB at a position.
pub(crate) fn label(flags: u32, position: u16) -> Label {
    Label {
        uuid: UUID,
        name: [0; 64],
        flags,
        nlabel: 2,
        position,
        cookie: 7,
        lba_size: 512,
        dpa: BASE,
        raw_size: 2_097_152,
        slot: 0,
        alignment: 0,
        type_guid: PERSISTENT_MEMORY,
        abstraction: [0; 16],
    }
}

/// A module with two slots, one of which may have a label.
pub(crate) fn module(
    rt: &HostRuntime,
    handle: u32,
    kind: AreaKind,
    first: Option<Label>,
) -> Result<ModuleLabels, AllocError> {
    let mut slots = List::new(rt.alloc());
    slots.push(first)?;
    slots.push(None)?;
    Ok(ModuleLabels {
        handle,
        kind,
        slots,
    })
}
