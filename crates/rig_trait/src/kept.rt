//! What is told of a call that was kept.

/// A call that a rig in memory kept. Offsets are in bytes.
#[derive(Clone, Copy, Debug, PartialEq, Eq)]
pub enum Kept<'a> {
    /// A write of the bytes `new` over the bytes `old`, from the offset `at` of an area on.
    Write {
        dimm: u32,
        at: u64,
        old: &'a [u8],
        new: &'a [u8],
    },
    /// A `say` of these bytes.
    Say {
        bytes: &'a [u8],
    },
}
