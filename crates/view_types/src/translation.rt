//! Addresses translated between a region and its modules.

/// A run of bytes of one module. Address and length are in bytes.
#[derive(Clone, Copy, Debug, PartialEq, Eq)]
pub struct Run {
    /// The device handle of the module.
    pub dimm: u32,
    /// The lowest device physical address (DPA) of the run.
    pub dpa: u64,
    pub length: u64,
}

/// Why addresses of a region cannot be translated: the first of these faults that applies, in this order (ACPI 6.2,
/// sections 5.2.25.3 and 5.2.25.4).
#[derive(Clone, Copy, Debug, PartialEq, Eq)]
pub enum TranslateFault {
    /// A region of more than one way has a member without an interleave structure, or a member names one that the
    /// table does not have.
    NoInterleave,
    /// A member's interleave structure has more than 4,096 lines.
    TooManyLines,
    /// A member's mapping tells another number of ways than the region has members.
    WaysDiffer,
    /// Two members' interleave structures differ in the number or the size of their lines, or one of these is 0.
    LinesDiffer,
    /// A member's region offset is no multiple of the line size.
    OffsetNotLine,
    /// The size of a member's part is no multiple of the lines times the line size.
    Ragged,
    /// This line of the region, counted from 0, is the first that is not exactly one line of one member.
    NotPartition { line: u32 },
}
