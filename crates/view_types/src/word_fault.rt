//! Why a line is no command.

use crate::key::Key;

/// Why a line is no command: its first fault.
#[derive(Clone, Copy, Debug, PartialEq, Eq)]
pub enum WordFault {
    /// It has more than 4,096 bytes.
    TooLong,
    /// The byte at this offset is the first that is none of 0x20 to 0x7E.
    Byte { at: u32 },
    /// Its first piece is no command.
    Unknown,
    /// The piece of this number, counted from 1 behind the command, is no `key=value` with a key of the command.
    Key { piece: u32 },
    /// A key is given again.
    Twice { key: Key },
    /// A key that the command asks for is not given.
    Missing { key: Key },
    /// The value of a key is not of its kind.
    Value { key: Key },
}
