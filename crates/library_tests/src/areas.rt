//! Label storage areas of 1,024 bytes, with two slots each.

ghost use Rattle.std.specs.Prelude.{◌+◌, ◌≤◌, length};

use std::alloc::{AllocError, Global};

/// The index blocks of an area that was initialised, up to their bitmaps (docs/FORMATS.md), with checksums that were
/// worked out by hand.
const FIRST: &[u8; 73] = b"NAMESPACE_INDEX\0\0\0\0\x01\x03\0\0\0\0\0\0\0\0\0\0\0\0\x01\0\0\0\0\0\0\
\0\x01\0\0\0\0\0\0\0\x02\0\0\0\0\0\0\x02\0\0\0\x01\0\x02\0\x33\x3a\x32\xd8\xa7\x83\x93\x27\x03";

const SECOND: &[u8; 73] =
    b"NAMESPACE_INDEX\0\0\0\0\x01\x02\0\0\0\0\x01\0\0\0\0\0\0\0\x01\0\0\0\0\0\0\
\0\0\0\0\0\0\0\0\0\x02\0\0\0\0\0\0\x02\0\0\0\x01\0\x02\0\x32\x3a\x32\xd8\x6c\x87\x93\x27\x03";

/// An area of zeros.
pub(crate) fn blank(alloc: Global) -> Result<Vec<u8>, AllocError> {
    vec![in alloc; 0; 1024]
}

/// An area that was initialised.
pub(crate) fn initialised(alloc: Global) -> Result<Vec<u8>, AllocError> {
    let mut area = [0; 1024];
    put(&mut area, 0, FIRST);
    put(&mut area, 256, SECOND);
    area.to_vec(alloc)
}

/// Puts a field over the bytes at an offset.
pub(crate) fn put(into: &mut [u8], at: usize, field: &[u8])
    requires { at + length field.now ≤ length into.old }
{
    into[at..at + field.len()].copy_from_slice(field);
}
