//! Why a line has no answer of its own.

use hex::FromHexError;
use std::alloc::{AllocError, AllocFailed};

/// Why a line has no answer of its own.
#[derive(Debug, Drop)]
pub(crate) enum Fault {
    /// The line is not understood, or asks for a call whose condition does not hold.
    Refused,
    Memory,
}

impl From<AllocError> for Fault {
    fn from(_: AllocError) -> Fault {
        Fault::Memory
    }
}

impl<T: Drop> From<AllocFailed<T>> for Fault {
    fn from(_: AllocFailed<T>) -> Fault {
        Fault::Memory
    }
}

impl From<FromHexError> for Fault {
    fn from(fault: FromHexError) -> Fault {
        match fault {
            FromHexError::OutOfMemory => Fault::Memory,
            _ => Fault::Refused,
        }
    }
}
