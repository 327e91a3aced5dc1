//! What is noted.

/// A range of addresses with bad bytes.
#[derive(Clone, Copy, Debug, PartialEq, Eq)]
pub struct BadRow {
    /// The first system physical address.
    pub spa: u64,
    /// How many bytes there are.
    pub length: u64,
}

/// A text for a namespace.
#[derive(Clone, Copy, Debug, PartialEq, Eq)]
pub struct Tag {
    /// The namespace's uuid.
    pub uuid: [u8; 16],
    /// The text, with zeros behind it.
    pub text: [u8; 64],
}
