//! The namespaces that commands ask for.

/// A namespace that is asked for.
#[derive(Clone, Copy, Debug, PartialEq, Eq)]
pub struct NewNamespace {
    /// The index of its region.
    pub region: u16,
    /// In bytes of all members: a multiple of 2 MiB of each.
    pub size: u64,
    /// With zeros behind it. Two namespaces of a region have the same name only where both have none.
    pub name: [u8; 64],
    /// The GUID of the abstraction, in the form of EFI: how the bytes of the namespace are used.
    pub abstraction: [u8; 16],
    /// The size of a sector in bytes.
    pub sector: u64,
    pub uuid: [u8; 16],
}
