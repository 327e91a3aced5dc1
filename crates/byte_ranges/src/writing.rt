//! Fields as they are written, over bytes that are there or behind them. Offsets are in bytes.

ghost use Rattle.std.specs.Prelude.{◌≡◌, ◌+◌, ◌≤◌, ◌++◌, length, OnOk};
ghost use Rattle.byteorder.specs.Endian.{little_bytes};
ghost use Rattle.byte_ranges.specs.Ranges.{patched};

use std::alloc::AllocError;

/// Writes a field over the bytes from an offset on.
#[tactic(auto, unfolding(crate::specs::Ranges::patched))]
pub fn put(into: &mut [u8], at: usize, field: &[u8])
    requires { at + length field.now ≤ length into.old }
    ensures { into.new ≡ patched into.old at field.now }
{
    into[at..at + field.len()].copy_from_slice(field);
}

/// Writes a number over the two bytes from an offset on.
pub fn put_u16(into: &mut [u8], at: usize, number: u16)
    requires { at + 2 ≤ length into.old }
    ensures { into.new ≡ patched into.old at (little_bytes 2 number) }
{
    put(into, at, &number.to_le_bytes());
}

/// Writes a number over the four bytes from an offset on.
pub fn put_u32(into: &mut [u8], at: usize, number: u32)
    requires { at + 4 ≤ length into.old }
    ensures { into.new ≡ patched into.old at (little_bytes 4 number) }
{
    put(into, at, &number.to_le_bytes());
}

/// Writes a number over the eight bytes from an offset on.
pub fn put_u64(into: &mut [u8], at: usize, number: u64)
    requires { at + 8 ≤ length into.old }
    ensures { into.new ≡ patched into.old at (little_bytes 8 number) }
{
    put(into, at, &number.to_le_bytes());
}

/// Appends a number as two bytes.
pub fn push_u16(out: &mut Vec<u8>, number: u16) -> Result<(), AllocError>
    ensures { OnOk result (out.new.items ≡ out.old.items ++ little_bytes 2 number) }
{
    out.extend_from_slice(&number.to_le_bytes())
}

/// Appends a number as four bytes.
pub fn push_u32(out: &mut Vec<u8>, number: u32) -> Result<(), AllocError>
    ensures { OnOk result (out.new.items ≡ out.old.items ++ little_bytes 4 number) }
{
    out.extend_from_slice(&number.to_le_bytes())
}

/// Appends a number as eight bytes.
pub fn push_u64(out: &mut Vec<u8>, number: u64) -> Result<(), AllocError>
    ensures { OnOk result (out.new.items ≡ out.old.items ++ little_bytes 8 number) }
{
    out.extend_from_slice(&number.to_le_bytes())
}
