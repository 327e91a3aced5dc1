//! The platform of a table.

ghost use Rattle.std.specs.Prelude.{◌≡◌, IfOk};
ghost use Rattle.std.specs.Option.{option_copied};

use crate::modules::modules;
use crate::records::{all_control_fields, parts_of_ranges, ranges_by_index, tables_by_index};
use crate::regions::regions;
use nfit_tables::Nfit;
use std::alloc::{AllocError, Global};
use view_types::{List, Rule};

/// A module's part of a region: a region mapping (ACPI 6.2, section 5.2.25.3) with fields of its control region
/// (section 5.2.25.6). Addresses, sizes and offsets are in bytes.
#[derive(Clone, Copy, Debug, PartialEq, Eq)]
pub struct Member {
    /// The device handle of the module.
    pub handle: u32,
    /// The lowest device physical address (DPA) of the part.
    pub dpa_base: u64,
    /// How many bytes of the module belong to the region.
    pub size: u64,
    /// The offset of the part in the interleave set. Positions ascend by it.
    pub region_offset: u64,
    /// The index of the interleave structure. 0 where there is none.
    pub interleave: u16,
    /// How many ways the mapping tells. Nothing here rests on it.
    pub ways: u16,
    /// The serial number of the control region.
    pub serial: u32,
    /// The vendor of the control region.
    pub vendor: u16,
    /// The manufacturing date of the control region.
    pub date: u16,
    /// The manufacturing location of the control region.
    pub location: u8,
}

/// A range of system physical addresses (SPA) of persistent memory with an index above 0 (ACPI 6.2, section
/// 5.2.25.2).
#[derive(Drop)]
pub struct Region {
    /// The index of the range, from 1 on: the region's name.
    pub index: u16,
    /// The lowest system physical address, in bytes.
    pub spa: u64,
    /// The length in bytes.
    pub length: u64,
    /// Why the region cannot be used. `None` exactly where it can.
    pub rule: Option<Rule>,
    /// The members by position, 1 to 16 of them. A region that cannot be used has none.
    pub members: List<Member>,
    /// The interleave set cookie of version 1.2 of the labels. 0 where the region cannot be used.
    pub cookie: u64,
}

/// The lines of an interleave set (ACPI 6.2, section 5.2.25.4).
#[derive(Drop)]
pub struct LineTable {
    /// The index of the interleave structure, from 1 on.
    pub index: u16,
    /// The size of a line in bytes.
    pub size: u32,
    /// The offset of each line in lines.
    pub lines: List<u32>,
}

/// What a table says of regions and modules.
#[derive(Drop)]
pub struct Platform {
    /// The regions, by ascending index.
    pub regions: List<Region>,
    /// The device handles of all region mappings, ascending, each once. At most 64.
    pub modules: List<u32>,
    /// The line tables, by ascending index.
    pub tables: List<LineTable>,
}

impl Platform {
    ghost use Rattle.nfit_tables.specs.Proper.{IsProper};
    ghost use Rattle.region_map.specs.Platforms.{IsPlatformOf, IsSound, region_at};

    /// The platform of a proper table, as `read_nfit` gives it.
    pub fn of(alloc: Global, nfit: &Nfit) -> Result<Platform, AllocError>
        requires { IsProper nfit.now }
        ensures platform { IfOk result (λ platform. IsPlatformOf nfit.now platform) }
        ensures sound { IfOk result (λ platform. IsSound platform) }
    {
        let pieces = nfit.pieces.as_slice();
        let ranges = ranges_by_index(alloc, pieces)?;
        let parts = parts_of_ranges(alloc, pieces, &ranges)?;
        let controls = all_control_fields(alloc, pieces)?;
        Ok(Platform {
            regions: regions(alloc, &parts, &controls, &ranges)?,
            modules: modules(alloc, pieces)?,
            tables: tables_by_index(alloc, pieces)?,
        })
    }

    /// The region with an index. `None` exactly where there is none.
    pub fn region(&self, index: u16) -> Option<&Region>
        ensures { option_copied result ≡ region_at self.now index }
    {
        self.regions
            .as_slice()
            .iter()
            .find(|region| region.index == index)
    }
}
