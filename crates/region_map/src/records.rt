//! What the structures of a table say of regions (ACPI 6.2, section 5.2.25).

ghost use Rattle.std.specs.Prelude.{◌≡◌, filter, IfOk};
ghost use Rattle.std.specs.List.{filter_map};
ghost use Rattle.region_map.specs.Records.{IsAscending, all_control_fields, control_fields_of, control_named};
ghost use Rattle.region_map.specs.Records.{line_table_of, line_tables, member_of, names_region, part_of, parts_naming};
ghost use Rattle.region_map.specs.Records.{persistent_range_of, persistent_ranges, region_parts};

use crate::platform::{LineTable, Member};
use nfit_tables::Piece;
use std::alloc::{AllocError, Global};
use view_types::{List, PERSISTENT_MEMORY};

/// An address range of persistent memory with an index above 0. Base and length are in bytes.
#[derive(Clone, Copy)]
pub(crate) struct PersistentRange {
    pub(crate) index: u16,
    pub(crate) base: u64,
    pub(crate) length: u64,
}

/// A module's part of a range: a region mapping. Base, size and offset are in bytes.
#[derive(Clone, Copy)]
pub(crate) struct Part {
    pub(crate) handle: u32,
    pub(crate) range: u16,
    pub(crate) control: u16,
    pub(crate) base: u64,
    pub(crate) size: u64,
    pub(crate) offset: u64,
    pub(crate) interleave: u16,
    pub(crate) ways: u16,
}

/// What a control region says of a module.
#[derive(Clone, Copy)]
pub(crate) struct ControlFields {
    pub(crate) index: u16,
    pub(crate) serial: u32,
    pub(crate) vendor: u16,
    pub(crate) date: u16,
    pub(crate) location: u8,
}

/// The address ranges of persistent memory with an index above 0, by ascending index.
pub(crate) fn ranges_by_index(
    alloc: Global,
    pieces: &[Piece],
) -> Result<Vec<PersistentRange>, AllocError>
    ensures { IfOk result (λ ranges. IsAscending (λ r. r.index) (persistent_ranges pieces.now) ranges.items) }
{
    let mut ranges = persistent_ranges(alloc, pieces)?;
    ranges.sort_unstable_by_key(|range| range.index);
    Ok(ranges)
}

fn persistent_ranges(alloc: Global, pieces: &[Piece]) -> Result<Vec<PersistentRange>, AllocError>
    ensures { IfOk result (λ ranges. ranges.items ≡ persistent_ranges pieces.now) }
{
    pieces
        .iter()
        .filter_map(|piece| persistent_range_of(piece))
        .collect(alloc)
}

fn persistent_range_of(piece: &Piece) -> Option<PersistentRange>
    ensures { result ≡ persistent_range_of piece.now }
{
    match piece {
        Piece::Range(p) if p.type_guid == PERSISTENT_MEMORY && p.index > 0 => {
            Some(PersistentRange {
                index: p.index,
                base: p.base,
                length: p.length,
            })
        }
        _ => None,
    }
}

/// The mappings that name one of the ranges.
pub(crate) fn parts_of_ranges(
    alloc: Global,
    pieces: &[Piece],
    ranges: &[PersistentRange],
) -> Result<Vec<Part>, AllocError>
    ensures { IfOk result
        (λ parts. parts.items ≡ filter (names_region ranges.now) (filter_map part_of pieces.now)) }
{
    pieces
        .iter()
        .filter_map(|piece| part_of(piece))
        .filter(|part| names_region(ranges, part))
        .collect(alloc)
}

fn names_region(ranges: &[PersistentRange], part: &Part) -> bool
    ensures { result ≡ names_region ranges.now part.now }
{
    ranges.iter().any(|range| range.index == part.range)
}

fn part_of(piece: &Piece) -> Option<Part>
    ensures { result ≡ part_of piece.now }
{
    match piece {
        Piece::Mapping(p) => Some(Part {
            handle: p.device_handle,
            range: p.range_index,
            control: p.control_index,
            base: p.module_address_base,
            size: p.region_size,
            offset: p.region_offset,
            interleave: p.interleave_index,
            ways: p.ways,
        }),
        _ => None,
    }
}

/// The mappings that name the range with this index.
pub(crate) fn parts_naming(
    alloc: Global,
    index: u16,
    parts: &[Part],
) -> Result<Vec<Part>, AllocError>
    ensures { IfOk result (λ named. named.items ≡ parts_naming index parts.now) }
{
    parts
        .iter()
        .copied()
        .filter(|part| part.range == index)
        .collect(alloc)
}

/// The control regions with an index above 0.
pub(crate) fn all_control_fields(
    alloc: Global,
    pieces: &[Piece],
) -> Result<Vec<ControlFields>, AllocError>
    ensures { IfOk result (λ controls. controls.items ≡ all_control_fields pieces.now) }
{
    pieces
        .iter()
        .filter_map(|piece| control_fields_of(piece))
        .collect(alloc)
}

fn control_fields_of(piece: &Piece) -> Option<ControlFields>
    ensures { result ≡ control_fields_of piece.now }
{
    match piece {
        Piece::Control(p) if p.index > 0 => Some(ControlFields {
            index: p.index,
            serial: p.serial_number,
            vendor: p.vendor,
            date: p.manufacturing_date,
            location: p.manufacturing_location,
        }),
        _ => None,
    }
}

/// The control region that a mapping names.
pub(crate) fn control_named(controls: &[ControlFields], part: &Part) -> Option<ControlFields>
    ensures { result ≡ control_named controls.now part.now }
{
    controls
        .iter()
        .copied()
        .find(|control| control.index == part.control)
}

/// A mapping with the fields of the control region that it names.
pub(crate) fn member_of(controls: &[ControlFields], part: &Part) -> Option<Member>
    ensures { result ≡ member_of controls.now part.now }
{
    let control = control_named(controls, part)?;
    Some(Member {
        handle: part.handle,
        dpa_base: part.base,
        size: part.size,
        region_offset: part.offset,
        interleave: part.interleave,
        ways: part.ways,
        serial: control.serial,
        vendor: control.vendor,
        date: control.date,
        location: control.location,
    })
}

/// The line tables of the interleave structures with an index above 0, by ascending index.
pub(crate) fn tables_by_index(
    alloc: Global,
    pieces: &[Piece],
) -> Result<List<LineTable>, AllocError>
    ensures { IfOk result (λ tables. IsAscending (λ t. t.index) (line_tables pieces.now) tables) }
{
    let mut tables = line_tables(alloc, pieces)?;
    tables.sort_unstable_by_key(|table| table.index);
    Ok(List::from_vec(tables))
}

fn line_tables(alloc: Global, pieces: &[Piece]) -> Result<Vec<LineTable>, AllocError>
    ensures { IfOk result (λ tables. tables.items ≡ line_tables pieces.now) }
{
    let mut tables = Vec::new(alloc);
    for piece in pieces {
        if let Some(table) = line_table_of(alloc, piece)? {
            tables.push(table)?;
        }
    }
    Ok(tables)
}

fn line_table_of(alloc: Global, piece: &Piece) -> Result<Option<LineTable>, AllocError>
    ensures { IfOk result (λ table. table ≡ line_table_of piece.now) }
{
    match piece {
        Piece::Interleave(p) if p.index > 0 => Ok(Some(LineTable {
            index: p.index,
            size: p.line_size,
            lines: List::from_vec(Vec::from_slice(alloc, p.lines.as_slice())?),
        })),
        _ => Ok(None),
    }
}
