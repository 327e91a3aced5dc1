//! Namespaces and held labels, as they are listed.

/// A namespace of a region. Offset and length are in bytes of each member's part of its module.
#[derive(Clone, Copy, Debug, PartialEq, Eq)]
pub struct Namespace {
    pub uuid: [u8; 16],
    /// The name as it stands in the label, with what follows its first zero byte.
    pub name: [u8; 64],
    /// The GUID of the address abstraction: how the bytes are used (UEFI 2.7, section 13.19).
    pub abstraction: [u8; 16],
    /// The size of a sector in bytes.
    pub sector: u64,
    pub offset: u64,
    pub length: u64,
    /// One of its labels is marked as being changed, and the namespace is not read-only.
    pub pending: bool,
    /// One of its labels is read-only.
    pub read_only: bool,
}

/// A label that is part of no namespace, and keeps its range. Address and size are in bytes of the module.
#[derive(Clone, Copy, Debug, PartialEq, Eq)]
pub struct Held {
    pub uuid: [u8; 16],
    /// The lowest device physical address (DPA) of the range.
    pub dpa: u64,
    pub size: u64,
    /// The label describes a range of its module alone.
    pub local: bool,
    pub read_only: bool,
    /// The label is marked as being changed.
    pub updating: bool,
    /// The index of the region that the label belongs to, if any.
    pub region: Option<u16>,
}

/// A namespace with its region.
#[derive(Clone, Copy, Debug, PartialEq, Eq)]
pub struct Listed {
    /// The index of the region.
    pub region: u16,
    /// The number of the region's members.
    pub ways: u16,
    pub space: Namespace,
}
