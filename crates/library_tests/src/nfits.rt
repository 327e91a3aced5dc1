//! NFITs and their structures (ACPI 6.2, section 5.2.25).

ghost use Rattle.std.specs.Prelude.{◌≤◌, length};

use crate::areas::put;
use std::alloc::{AllocError, Global};
use view_types::PERSISTENT_MEMORY;

/// An address range of 128 GiB at 4 GiB.
fn range(index: u16, type_guid: &[u8; 16]) -> [u8; 56] {
    let mut bytes = [0; 56];
    bytes[2] = 56;
    put(&mut bytes, 4, &index.to_le_bytes());
    put(&mut bytes, 16, type_guid);
    bytes[36] = 1;
    bytes[44] = 0x20;
    put(&mut bytes, 48, &[0x08, 0x80]);
    bytes
}

/// A region of 64 GiB in range 1, in an interleave of two ways by interleave structure 1.
fn mapping(handle: u32, control: u16, offset: u64) -> [u8; 48] {
    let mut bytes = [0; 48];
    bytes[0] = 1;
    bytes[2] = 48;
    put(&mut bytes, 4, &handle.to_le_bytes());
    bytes[12] = 1;
    put(&mut bytes, 14, &control.to_le_bytes());
    bytes[20] = 0x10;
    put(&mut bytes, 24, &offset.to_le_bytes());
    bytes[40] = 1;
    bytes[42] = 2;
    bytes
}

/// Two lines of 4,096 bytes.
fn interleave(index: u16, lines: [u32; 2]) -> [u8; 24] {
    let mut bytes = [0; 24];
    bytes[0] = 2;
    bytes[2] = 24;
    put(&mut bytes, 4, &index.to_le_bytes());
    bytes[8] = 2;
    bytes[13] = 0x10;
    put(&mut bytes, 16, &lines[0].to_le_bytes());
    put(&mut bytes, 20, &lines[1].to_le_bytes());
    bytes
}

/// A control region of the vendor 0x1234.
fn control(index: u16, serial: u32) -> [u8; 32] {
    let mut bytes = [0; 32];
    bytes[0] = 4;
    bytes[2] = 32;
    put(&mut bytes, 4, &index.to_le_bytes());
    put(&mut bytes, 6, &[0x34, 0x12]);
    put(&mut bytes, 24, &serial.to_le_bytes());
    bytes
}

/// Two modules of 64 GiB in one region of 128 GiB: an address range, two control regions, the interleave of every
/// second line, and two mappings, in 240 bytes.
pub(crate) fn two_modules(alloc: Global) -> Result<Vec<u8>, AllocError> {
    let mut structures = Vec::new(alloc);
    structures.extend_from_slice(&range(1, &PERSISTENT_MEMORY))?;
    structures.extend_from_slice(&control(1, 1))?;
    structures.extend_from_slice(&control(2, 2))?;
    structures.extend_from_slice(&interleave(1, [0, 2]))?;
    structures.extend_from_slice(&mapping(0x1, 1, 0))?;
    structures.extend_from_slice(&mapping(0x101, 2, 4096))?;
    Ok(structures)
}

/// The NFIT of some structures, with the right length and checksum. The texts of its header are spaces, and its
/// numbers 0.
pub(crate) fn nfit(alloc: Global, structures: &[u8]) -> Result<Vec<u8>, AllocError> {
    let len = u32::try_from(structures.len()).unwrap_or(u32::MAX);
    let mut bytes = Vec::new(alloc);
    bytes.extend_from_slice(b"NFIT")?;
    bytes.extend_from_slice(&len.saturating_add(40).to_le_bytes())?;
    bytes.extend_from_slice(b"\x01\0              ")?;
    bytes.extend_from_slice(&[0; 16])?;
    bytes.extend_from_slice(structures)?;
    put_sum(&mut bytes);
    Ok(bytes)
}

/// Puts the checksum byte with which all bytes of an NFIT sum to 0 modulo 256, where there is a place for it.
pub(crate) fn put_sum(bytes: &mut [u8]) {
    if bytes.len() < 10 {
        return;
    }
    bytes[9] = 0;
    let mut sum: u8 = 0;
    for byte in bytes.iter() {
        sum = sum.wrapping_add(*byte);
    }
    bytes[9] = sum.wrapping_neg();
}
