//! Names that stand twice, and how many regions and modules there are.

ghost use Rattle.std.specs.Prelude.{◌≡◌, ℕ, length, nat_lt, IfOk, IfSome, IsTrue, OnOk};
ghost use Rattle.nfit_tables.specs.Proper.{handle_of, is_region, module_count, name_of, region_count};
ghost use Rattle.nfit_tables.specs.Reading.{Gives, checked, first_twice};
ghost use Rattle.nfit_tables.specs.Limits.{most_modules};
ghost use Rattle.nfit_tables.specs.Marks.{is_indexed, with_new};

use crate::fault::{NfitFault, ReadNfit};
use crate::limits::{MOST_MODULES, MOST_REGIONS};
use crate::marks::IndexMarks;
use crate::pieces::{Nfit, Piece};
use std::alloc::{AllocError, Global};
use view_types::PERSISTENT_MEMORY;

/// The table, if nothing in it stands twice or too often.
pub(crate) fn checked(alloc: Global, nfit: Nfit) -> Result<Nfit, ReadNfit>
    ensures { Gives result (checked nfit) }
{
    let pieces = nfit.pieces.as_slice();
    if let Some((kind, index)) = first_twice(alloc, pieces)? {
        return Err(ReadNfit::Fault(NfitFault::TwiceIndex { kind, index }));
    }
    if region_count(pieces) > MOST_REGIONS {
        return Err(ReadNfit::Fault(NfitFault::TooMany { kind: 0 }));
    }
    if has_many_modules(alloc, pieces)? {
        return Err(ReadNfit::Fault(NfitFault::TooMany { kind: 1 }));
    }
    Ok(nfit)
}

/// The first type and index that an earlier structure has.
fn first_twice(alloc: Global, pieces: &[Piece]) -> Result<Option<(u16, u16)>, AllocError>
    ensures { IfOk result (λ name. name ≡ first_twice pieces.now) }
{
    let mut seen = IndexMarks::new(alloc)?;
    for piece in pieces {
        if let Some((kind, index)) = name_of(piece) {
            if seen.add(kind, index) {
                return Ok(Some((kind, index)));
            }
        }
    }
    Ok(None)
}

/// The type and index of a structure, if it has an index of its own and that is above 0.
fn name_of(piece: &Piece) -> Option<(u16, u16)>
    ensures name { result ≡ name_of piece.now }
    ensures indexed { IfSome result (λ name. IsTrue (is_indexed name.0)) }
{
    let (kind, index) = match piece {
        Piece::Range(p) => (0, p.index),
        Piece::Interleave(p) => (2, p.index),
        Piece::Control(p) => (4, p.index),
        Piece::Mapping(_) | Piece::Kept(_) => return None,
    };
    if index == 0 {
        return None;
    }
    Some((kind, index))
}

/// How many structures are address ranges of persistent memory with an index above 0.
fn region_count(pieces: &[Piece]) -> usize
    ensures { result ≡ region_count pieces.now }
{
    pieces.iter().filter(|piece| is_region(piece)).count()
}

/// Whether a structure is an address range of persistent memory with an index above 0.
fn is_region(piece: &Piece) -> bool
    ensures { result ≡ is_region piece.now }
{
    match piece {
        Piece::Range(p) => p.type_guid == PERSISTENT_MEMORY && p.index > 0,
        _ => false,
    }
}

/// Whether there are more device handles in mappings than a table may have.
fn has_many_modules(alloc: Global, pieces: &[Piece]) -> Result<bool, AllocError>
    ensures { IfOk result (λ many. many ≡ nat_lt most_modules (module_count pieces.now)) }
{
    let mut handles = Vec::new(alloc);
    for piece in pieces {
        if let Some(handle) = handle_of(piece) {
            add_new(&mut handles, handle)?;
            if handles.len() > MOST_MODULES {
                return Ok(true);
            }
        }
    }
    Ok(false)
}

/// Appends a number that is not there yet.
fn add_new(numbers: &mut Vec<u32>, number: u32) -> Result<(), AllocError>
    ensures { OnOk result (numbers.new.items ≡ with_new numbers.old.items number) }
{
    if !numbers.contains(&number) {
        numbers.push(number)?;
    }
    Ok(())
}

/// The device handle of a mapping.
fn handle_of(piece: &Piece) -> Option<u32>
    ensures { result ≡ handle_of piece.now }
{
    match piece {
        Piece::Mapping(p) => Some(p.device_handle),
        _ => None,
    }
}
