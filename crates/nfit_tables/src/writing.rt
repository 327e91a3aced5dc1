//! Tables as bytes.

ghost use Rattle.std.specs.Prelude.{◌≡◌, ◌+◌, ◌*◌, ◌%◌, ◌<◌, ◌^◌, ◌++◌, length, nat_lt, sum, IfOk, IsTrue, OnOk};
ghost use Rattle.std.specs.Option.{SomeIff};
ghost use Rattle.std.specs.List.{flat_map, list_all};
ghost use Rattle.byteorder.specs.Endian.{little_bytes};
ghost use Rattle.nfit_tables.specs.Spelling.{body_of, control_fields, header_with, interleave_fields, type_of};
ghost use Rattle.nfit_tables.specs.Spelling.{length_of, mapping_fields, range_fields, spelling, spellings, text};
ghost use Rattle.nfit_tables.specs.declared.pieces.Piece.TheVariants.{Interleave, Range};
ghost use Rattle.nfit_tables.specs.Fitting.{fits};

use crate::limits::{
    HEADER_LEN, LEAST_CONTROL, LEAST_INTERLEAVE, LEAST_MAPPING, LEAST_RANGE, LEAST_STRUCTURE,
    MOST_BYTES,
};
use crate::pieces::{ControlPiece, Header, InterleavePiece, MappingPiece, Nfit, Piece, RangePiece};
use crate::sums::sum_of;
use byte_ranges::{push_u16, push_u32, push_u64};
use std::alloc::{AllocError, Global};

/// The offset of the checksum byte.
const CHECKSUM_AT: usize = 9;

/// Whether a table can be written: each structure is shorter than 65,536 bytes, and the whole has at most 1,048,576.
pub fn fits(nfit: &Nfit) -> bool
    ensures { result ≡ fits nfit.now }
{
    table_len(nfit).is_some()
}

/// The bytes of a table.
pub fn write_nfit(alloc: Global, nfit: &Nfit) -> Result<Vec<u8>, AllocError>
    requires { IsTrue (fits nfit.now) }
    ensures { IfOk result (λ bytes. bytes.items ≡ text nfit.now) }
{
    let len = table_len(nfit).unwrap();
    let mut bytes = Vec::with_capacity(alloc, len as usize)?;
    put_header(&mut bytes, len, &nfit.header)?;
    put_pieces(&mut bytes, nfit.pieces.as_slice())?;
    bytes[CHECKSUM_AT] = 0u8.wrapping_sub(sum_of(&bytes));
    Ok(bytes)
}

/// The length of a table in bytes. `None` exactly where it cannot be written.
fn table_len(nfit: &Nfit) -> Option<u32>
    ensures { SomeIff result (IsTrue (fits nfit.now)) (length_of nfit.now) }
{
    let mut len = HEADER_LEN as u32;
    for piece in nfit.pieces.as_slice() {
        len += u32::from(piece_len(piece)?);
        if len > MOST_BYTES {
            return None;
        }
    }
    Some(len)
}

/// The length of a structure in bytes. `None` exactly where it is 65,536 or more.
#[tactic(auto, unfolding(crate::specs::Spelling::spelling))]
fn piece_len(piece: &Piece) -> Option<u16>
    ensures { SomeIff result (length (spelling piece.now) < 65536) (length (spelling piece.now)) }
{
    match piece {
        Piece::Range(p) => range_len(p),
        Piece::Mapping(p) => len_with(LEAST_MAPPING, p.tail.len()),
        Piece::Interleave(p) => {
            let lines = p.lines.len();
            if lines < 0x4000 {
                len_with(LEAST_INTERLEAVE + 4 * lines, p.tail.len())
            } else {
                None
            }
        }
        Piece::Control(p) => len_with(LEAST_CONTROL, p.tail.len()),
        Piece::Kept(p) => len_with(LEAST_STRUCTURE, p.tail.len()),
    }
}

/// The length of an address range in bytes. `None` exactly where it is 65,536 or more.
fn range_len(p: &RangePiece) -> Option<u16>
    ensures { SomeIff result (length (spelling (Range p.now)) < 65536) (length (spelling (Range p.now))) }
{
    len_with(LEAST_RANGE, p.tail.len())
}

/// The length of fields and a tail, where it is below 65,536.
fn len_with(fields: usize, tail: usize) -> Option<u16>
    requires { fields < 131072 }
    ensures { SomeIff result (fields + tail < 65536) (fields + tail) }
{
    if tail >= 0x10000 {
        return None;
    }
    u16::try_from(fields + tail).ok()
}

/// Appends the header, with 0 in place of the checksum.
#[tactic(auto, unfolding(crate::specs::Spelling::header_with))]
fn put_header(out: &mut Vec<u8>, len: u32, header: &Header) -> Result<(), AllocError>
    ensures { OnOk result (out.new.items ≡ out.old.items ++ header_with 0 len header.now) }
{
    out.extend_from_slice(b"NFIT")?;
    push_u32(out, len)?;
    out.extend_from_slice(&[1, 0])?;
    out.extend_from_slice(&header.oem_id)?;
    out.extend_from_slice(&header.oem_table)?;
    push_u32(out, header.oem_revision)?;
    push_u32(out, header.creator)?;
    push_u32(out, header.creator_revision)?;
    push_u32(out, header.reserved)
}

/// Appends the structures.
fn put_pieces(out: &mut Vec<u8>, pieces: &[Piece]) -> Result<(), AllocError>
    requires { IsTrue (list_all (λ p. nat_lt (length (spelling p)) 65536) pieces.now) }
    ensures { OnOk result (out.new.items ≡ out.old.items ++ spellings pieces.now) }
{
    for piece in pieces {
        put_piece(out, piece)?;
    }
    Ok(())
}

/// Appends a structure.
#[tactic(auto, unfolding(crate::specs::Spelling::spelling))]
fn put_piece(out: &mut Vec<u8>, piece: &Piece) -> Result<(), AllocError>
    requires { length (spelling piece.now) < 65536 }
    ensures { OnOk result (out.new.items ≡ out.old.items ++ spelling piece.now) }
{
    let len = piece_len(piece).unwrap();
    push_u16(out, type_of(piece))?;
    push_u16(out, len)?;
    put_body(out, piece)
}

/// The type of a structure.
fn type_of(piece: &Piece) -> u16
    ensures { result ≡ type_of piece.now }
{
    match piece {
        Piece::Range(_) => 0,
        Piece::Mapping(_) => 1,
        Piece::Interleave(_) => 2,
        Piece::Control(_) => 4,
        Piece::Kept(p) => p.kind,
    }
}

/// Appends the fields of a structure behind its type and length, and the tail.
fn put_body(out: &mut Vec<u8>, piece: &Piece) -> Result<(), AllocError>
    requires { length (spelling piece.now) < 65536 }
    ensures { OnOk result (out.new.items ≡ out.old.items ++ body_of piece.now) }
{
    match piece {
        Piece::Range(p) => {
            put_range(out, p)?;
            out.extend_from_slice(p.tail.as_slice())
        }
        Piece::Mapping(p) => {
            put_mapping(out, p)?;
            out.extend_from_slice(p.tail.as_slice())
        }
        Piece::Interleave(p) => {
            put_interleave(out, p)?;
            out.extend_from_slice(p.tail.as_slice())
        }
        Piece::Control(p) => {
            put_control(out, p)?;
            out.extend_from_slice(p.tail.as_slice())
        }
        Piece::Kept(p) => out.extend_from_slice(p.tail.as_slice()),
    }
}

#[tactic(auto, unfolding(crate::specs::Spelling::range_fields))]
fn put_range(out: &mut Vec<u8>, p: &RangePiece) -> Result<(), AllocError>
    ensures { OnOk result (out.new.items ≡ out.old.items ++ range_fields p.now) }
{
    push_u16(out, p.index)?;
    push_u16(out, p.flags)?;
    push_u32(out, p.reserved)?;
    push_u32(out, p.proximity)?;
    out.extend_from_slice(&p.type_guid)?;
    push_u64(out, p.base)?;
    push_u64(out, p.length)?;
    push_u64(out, p.attributes)
}

#[tactic(auto, unfolding(crate::specs::Spelling::mapping_fields))]
fn put_mapping(out: &mut Vec<u8>, p: &MappingPiece) -> Result<(), AllocError>
    ensures { OnOk result (out.new.items ≡ out.old.items ++ mapping_fields p.now) }
{
    push_u32(out, p.device_handle)?;
    push_u16(out, p.physical_id)?;
    push_u16(out, p.region_id)?;
    push_u16(out, p.range_index)?;
    push_u16(out, p.control_index)?;
    push_u64(out, p.region_size)?;
    push_u64(out, p.region_offset)?;
    push_u64(out, p.module_address_base)?;
    push_u16(out, p.interleave_index)?;
    push_u16(out, p.ways)?;
    push_u16(out, p.state_flags)?;
    push_u16(out, p.reserved)
}

#[tactic(auto, unfolding(crate::specs::Spelling::interleave_fields))]
fn put_interleave(out: &mut Vec<u8>, p: &InterleavePiece) -> Result<(), AllocError>
    requires { length (spelling (Interleave p.now)) < 65536 }
    ensures { OnOk result (out.new.items ≡ out.old.items ++ interleave_fields p.now) }
{
    push_u16(out, p.index)?;
    push_u16(out, p.reserved)?;
    push_u32(out, p.lines.len() as u32)?;
    push_u32(out, p.line_size)?;
    put_lines(out, p.lines.as_slice())
}

/// Appends the offsets of lines.
fn put_lines(out: &mut Vec<u8>, lines: &[u32]) -> Result<(), AllocError>
    ensures { OnOk result (out.new.items ≡ out.old.items ++ flat_map (little_bytes 4) lines.now) }
{
    for line in lines {
        push_u32(out, *line)?;
    }
    Ok(())
}

#[tactic(auto, unfolding(crate::specs::Spelling::control_fields))]
fn put_control(out: &mut Vec<u8>, p: &ControlPiece) -> Result<(), AllocError>
    ensures { OnOk result (out.new.items ≡ out.old.items ++ control_fields p.now) }
{
    push_u16(out, p.index)?;
    push_u16(out, p.vendor)?;
    push_u16(out, p.device)?;
    push_u16(out, p.revision)?;
    push_u16(out, p.subsystem_vendor)?;
    push_u16(out, p.subsystem_device)?;
    push_u16(out, p.subsystem_revision)?;
    out.extend_from_slice(&[p.valid_fields, p.manufacturing_location])?;
    push_u16(out, p.manufacturing_date)?;
    push_u16(out, p.reserved)?;
    push_u32(out, p.serial_number)?;
    push_u16(out, p.format_code)?;
    push_u16(out, p.number_of_windows)
}
