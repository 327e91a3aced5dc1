//! Bytes as tables.

ghost use Rattle.std.specs.Prelude.{◌≡◌, ◌+◌, ◌≤◌, ◌<◌, ◌^◌, Err, Ok, Some, None, drop, length, if◌then◌else◌, IfOk};
ghost use Rattle.byte_ranges.specs.Ranges.{number_at};
ghost use Rattle.nfit_tables.specs.declared.pieces.Nfit.{Nfit};
ghost use Rattle.nfit_tables.specs.declared.fault.ReadNfit.TheVariants.{Fault};
ghost use Rattle.nfit_tables.specs.Limits.{header_len};
ghost use Rattle.nfit_tables.specs.Proper.{IsProper};
ghost use Rattle.nfit_tables.specs.Spelling.{text};
ghost use Rattle.nfit_tables.specs.Reading.{Gives, has_least, is_structure, pieces_at, table_of, told_length};

use crate::counting::checked;
use crate::fault::{NfitFault, ReadNfit};
use crate::fields::{header, piece};
use crate::limits::{
    HEADER_LEN, LEAST_CONTROL, LEAST_INTERLEAVE, LEAST_MAPPING, LEAST_RANGE, LEAST_STRUCTURE,
};
use crate::pieces::{Nfit, Piece};
use crate::sums::sum_of;
use byte_ranges::{u16_at, u32_at};
use std::alloc::Global;
use view_types::List;

/// The table that the bytes are, all of them (ACPI 6.2, section 5.2.25).
///
/// Otherwise the first of these faults, in this order:
/// - `Short` if there are fewer than 40 bytes.
/// - `Signature` if the first four bytes are not `NFIT`.
/// - `Length` if the header tells another length than there are bytes.
/// - `Revision` if the revision is not 1.
/// - `Checksum` if the sum of all bytes modulo 256 is not 0.
/// - `Structure` if at the offset `at` fewer than 4 bytes are left, or the structure there tells a length below the
///   least of its type, or one that reaches past the end.
/// - `TwiceIndex` if an address range, an interleave or a control region has an index above 0 that an earlier structure
///   of its type has: the first such structure.
/// - `TooMany` of kind 0 if more than 64 address ranges of persistent memory have an index above 0.
/// - `TooMany` of kind 1 if the region mappings have more than 64 different device handles.
///
/// `Memory` if memory is refused.
pub fn read_nfit(alloc: Global, bytes: &[u8]) -> Result<Nfit, ReadNfit>
    // What is read is a proper table, and its text is the bytes.
    ensures found { IfOk result (λ n. IsProper n × (bytes.now ≡ text n)) }
    // What a proper table spells is read, unless memory is refused.
    ensures only { (n : Nfit) → IsProper n → bytes.now ≡ text n → Gives result (Ok n) }
    // Which fault it is.
    ensures exact { Gives result (table_of bytes.now) }
{
    table(alloc, bytes)
}

/// The table that the bytes are, or the first fault.
fn table(alloc: Global, bytes: &[u8]) -> Result<Nfit, ReadNfit>
    ensures { Gives result (table_of bytes.now) }
{
    if bytes.len() < HEADER_LEN {
        return fault(NfitFault::Short {
            len: bytes.len() as u64,
        });
    }
    if !bytes.starts_with(b"NFIT") {
        return fault(NfitFault::Signature);
    }
    let told = u32_at(bytes, 4);
    if u64::from(told) != bytes.len() as u64 {
        return fault(NfitFault::Length {
            told,
            len: bytes.len() as u64,
        });
    }
    if bytes[8] != 1 {
        return fault(NfitFault::Revision { value: bytes[8] });
    }
    let sum = sum_of(bytes);
    if sum != 0 {
        return fault(NfitFault::Checksum { sum });
    }
    let pieces = pieces(alloc, bytes)?;
    checked(
        alloc,
        Nfit {
            header: header(bytes),
            pieces,
        },
    )
}

/// No table, because of a fault.
fn fault(fault: NfitFault) -> Result<Nfit, ReadNfit>
    ensures { result ≡ Err (Fault fault) }
{
    Err(ReadNfit::Fault(fault))
}

/// The structures behind the header.
fn pieces(alloc: Global, bytes: &[u8]) -> Result<List<Piece>, ReadNfit>
    requires header { header_len ≤ length bytes.now }
    requires len { length bytes.now < 2 ^ 32 }
    ensures { Gives result (pieces_at (length bytes.now) header_len (drop header_len bytes.now)) }
{
    let mut pieces = List::new(alloc);
    let mut at = HEADER_LEN;
    while at < bytes.len() {
        let rest = &bytes[at..];
        let Some(len) = structure_len(rest) else {
            return Err(ReadNfit::Fault(NfitFault::Structure { at: at as u32 }));
        };
        pieces.push(piece(alloc, &rest[..len])?)?;
        at += len;
    }
    Ok(pieces)
}

/// The length in bytes of the structure at the front. `None` exactly where no whole one stands there.
fn structure_len(bytes: &[u8]) -> Option<usize>
    ensures { result ≡ (if is_structure bytes.now then Some (told_length bytes.now) else None) }
{
    if bytes.len() < LEAST_STRUCTURE {
        return None;
    }
    let len = usize::from(u16_at(bytes, 2));
    if len > bytes.len() || !has_least(bytes, len) {
        return None;
    }
    Some(len)
}

/// Whether the length of a structure is at least the least one of its type.
fn has_least(bytes: &[u8], len: usize) -> bool
    requires kind { 2 ≤ length bytes.now }
    requires len { len ≤ length bytes.now }
    ensures { result ≡ has_least (number_at 2 bytes.now 0) len bytes.now }
{
    match u16_at(bytes, 0) {
        0 => len >= LEAST_RANGE,
        1 => len >= LEAST_MAPPING,
        2 => { len >= LEAST_INTERLEAVE && len >= LEAST_INTERLEAVE + 4 * u32_at(bytes, 8) as usize }
        4 => len >= LEAST_CONTROL,
        _ => len >= LEAST_STRUCTURE,
    }
}
