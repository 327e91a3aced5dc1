//! The fields of structures, at their offsets.

ghost use Rattle.std.specs.Prelude.{◌≡◌, ◌+◌, ◌*◌, ◌≤◌, drop, length, slice_index, IfOk, IsTrue};
ghost use Rattle.byte_ranges.specs.Ranges.{number_at};
ghost use Rattle.nfit_tables.specs.Limits.{header_len, least_control, least_interleave, least_mapping, least_range};
ghost use Rattle.nfit_tables.specs.Limits.{least_structure};
ghost use Rattle.nfit_tables.specs.Reading.{control_in, has_least, header_in, interleave_in, line_count, lines_in};
ghost use Rattle.nfit_tables.specs.Reading.{mapping_in, piece_by, piece_in, range_in};

use crate::limits::{LEAST_CONTROL, LEAST_INTERLEAVE, LEAST_MAPPING, LEAST_RANGE, LEAST_STRUCTURE};
use crate::pieces::{
    ControlPiece, Header, InterleavePiece, KeptPiece, MappingPiece, Piece, RangePiece,
};
use byte_ranges::{array_at, u16_at, u32_at, u64_at};
use std::alloc::{AllocError, Global};
use view_types::List;

/// The fields of the header.
#[tactic(auto, unfolding(crate::specs::Reading::header_in))]
pub(crate) fn header(bytes: &[u8]) -> Header
    requires { header_len ≤ length bytes.now }
    ensures { result ≡ header_in bytes.now }
{
    Header {
        oem_id: array_at(bytes, 10),
        oem_table: array_at(bytes, 16),
        oem_revision: u32_at(bytes, 24),
        creator: u32_at(bytes, 28),
        creator_revision: u32_at(bytes, 32),
        reserved: u32_at(bytes, 36),
    }
}

/// The structure that the bytes are, all of them.
pub(crate) fn piece(alloc: Global, bytes: &[u8]) -> Result<Piece, AllocError>
    requires start { least_structure ≤ length bytes.now }
    requires least { IsTrue (has_least (number_at 2 bytes.now 0) (length bytes.now) bytes.now) }
    ensures { IfOk result (λ piece. piece ≡ piece_in bytes.now) }
{
    let kind = u16_at(bytes, 0);
    Ok(match kind {
        0 => Piece::Range(range(alloc, bytes)?),
        1 => Piece::Mapping(mapping(alloc, bytes)?),
        2 => Piece::Interleave(interleave(alloc, bytes)?),
        4 => Piece::Control(control(alloc, bytes)?),
        _ => Piece::Kept(KeptPiece {
            kind,
            tail: tail(alloc, bytes, LEAST_STRUCTURE)?,
        }),
    })
}

#[tactic(auto, unfolding(crate::specs::Reading::range_in))]
fn range(alloc: Global, bytes: &[u8]) -> Result<RangePiece, AllocError>
    requires { least_range ≤ length bytes.now }
    ensures { IfOk result (λ p. p ≡ range_in bytes.now) }
{
    Ok(RangePiece {
        index: u16_at(bytes, 4),
        flags: u16_at(bytes, 6),
        reserved: u32_at(bytes, 8),
        proximity: u32_at(bytes, 12),
        type_guid: array_at(bytes, 16),
        base: u64_at(bytes, 32),
        length: u64_at(bytes, 40),
        attributes: u64_at(bytes, 48),
        tail: tail(alloc, bytes, LEAST_RANGE)?,
    })
}

#[tactic(auto, unfolding(crate::specs::Reading::mapping_in))]
fn mapping(alloc: Global, bytes: &[u8]) -> Result<MappingPiece, AllocError>
    requires { least_mapping ≤ length bytes.now }
    ensures { IfOk result (λ p. p ≡ mapping_in bytes.now) }
{
    Ok(MappingPiece {
        device_handle: u32_at(bytes, 4),
        physical_id: u16_at(bytes, 8),
        region_id: u16_at(bytes, 10),
        range_index: u16_at(bytes, 12),
        control_index: u16_at(bytes, 14),
        region_size: u64_at(bytes, 16),
        region_offset: u64_at(bytes, 24),
        module_address_base: u64_at(bytes, 32),
        interleave_index: u16_at(bytes, 40),
        ways: u16_at(bytes, 42),
        state_flags: u16_at(bytes, 44),
        reserved: u16_at(bytes, 46),
        tail: tail(alloc, bytes, LEAST_MAPPING)?,
    })
}

#[tactic(auto, unfolding(crate::specs::Reading::interleave_in))]
fn interleave(alloc: Global, bytes: &[u8]) -> Result<InterleavePiece, AllocError>
    requires fields { least_interleave ≤ length bytes.now }
    requires lines { least_interleave + 4 * line_count bytes.now ≤ length bytes.now }
    ensures { IfOk result (λ p. p ≡ interleave_in bytes.now) }
{
    let count = u32_at(bytes, 8) as usize;
    Ok(InterleavePiece {
        index: u16_at(bytes, 4),
        reserved: u16_at(bytes, 6),
        line_size: u32_at(bytes, 12),
        lines: lines(alloc, count, bytes)?,
        tail: tail(alloc, bytes, LEAST_INTERLEAVE + 4 * count)?,
    })
}

/// The offsets of so many lines.
fn lines(alloc: Global, count: usize, bytes: &[u8]) -> Result<List<u32>, AllocError>
    requires { least_interleave + 4 * count ≤ length bytes.now }
    ensures { IfOk result (λ lines. lines ≡ lines_in count bytes.now) }
{
    let mut lines = List::new(alloc);
    for line in 0..count {
        lines.push(u32_at(bytes, LEAST_INTERLEAVE + 4 * line))?;
    }
    Ok(lines)
}

#[tactic(auto, unfolding(crate::specs::Reading::control_in))]
fn control(alloc: Global, bytes: &[u8]) -> Result<ControlPiece, AllocError>
    requires { least_control ≤ length bytes.now }
    ensures { IfOk result (λ p. p ≡ control_in bytes.now) }
{
    Ok(ControlPiece {
        index: u16_at(bytes, 4),
        vendor: u16_at(bytes, 6),
        device: u16_at(bytes, 8),
        revision: u16_at(bytes, 10),
        subsystem_vendor: u16_at(bytes, 12),
        subsystem_device: u16_at(bytes, 14),
        subsystem_revision: u16_at(bytes, 16),
        valid_fields: bytes[18],
        manufacturing_location: bytes[19],
        manufacturing_date: u16_at(bytes, 20),
        reserved: u16_at(bytes, 22),
        serial_number: u32_at(bytes, 24),
        format_code: u16_at(bytes, 28),
        number_of_windows: u16_at(bytes, 30),
        tail: tail(alloc, bytes, LEAST_CONTROL)?,
    })
}

/// The bytes from an offset on.
fn tail(alloc: Global, bytes: &[u8], at: usize) -> Result<List<u8>, AllocError>
    requires { at ≤ length bytes.now }
    ensures { IfOk result (λ tail. tail ≡ drop at bytes.now) }
{
    Ok(List::from_vec(Vec::from_slice(alloc, &bytes[at..])?))
}
