//! Lengths and limits, in bytes where nothing else is said.

/// The length of the header.
pub(crate) const HEADER_LEN: usize = 40;

/// The length of the type and the length of a structure, the least that a structure has.
pub(crate) const LEAST_STRUCTURE: usize = 4;

/// The least length of a system physical address range.
pub(crate) const LEAST_RANGE: usize = 56;

/// The least length of a region mapping.
pub(crate) const LEAST_MAPPING: usize = 48;

/// The length of an interleave structure without lines.
pub(crate) const LEAST_INTERLEAVE: usize = 16;

/// The least length of a control region.
pub(crate) const LEAST_CONTROL: usize = 32;

/// The most bytes that a table is written with.
pub const MOST_BYTES: u32 = 1_048_576;

/// The most address ranges of persistent memory with an index above 0.
pub const MOST_REGIONS: usize = 64;

/// The most device handles in mappings.
pub const MOST_MODULES: usize = 64;
