//! Why bytes are no table.

ghost use Rattle.std.specs.Prelude.{◌≡◌};
ghost use Rattle.nfit_tables.specs.declared.fault.ReadNfit.TheVariants.{Memory};

use std::alloc::AllocError;

/// Why bytes are no table: the first of these that applies. Lengths and offsets are in bytes.
#[derive(Clone, Copy, Debug, PartialEq, Eq)]
pub enum NfitFault {
    /// There are fewer bytes than a header has.
    Short { len: u64 },
    /// The first four bytes are not `NFIT`.
    Signature,
    /// The header tells another length than there are bytes.
    Length { told: u32, len: u64 },
    /// The revision is not 1.
    Revision { value: u8 },
    /// The sum of all bytes modulo 256 is not 0.
    Checksum { sum: u8 },
    /// The structure at this offset is cut off: fewer than 4 bytes are there, or its length is below the least of its
    /// type or reaches past the end.
    Structure { at: u32 },
    /// An index above 0 is that of an earlier structure of the same type.
    TwiceIndex { kind: u16, index: u16 },
    /// There are more than `MOST_REGIONS` address ranges of persistent memory with an index above 0, where the kind is
    /// 0, or more than `MOST_MODULES` modules, where it is 1.
    TooMany { kind: u16 },
}

/// Why a table is not read.
#[derive(Clone, Copy, Debug, PartialEq, Eq)]
pub enum ReadNfit {
    Fault(NfitFault),
    /// Memory was refused.
    Memory,
}

impl From<AllocError> for ReadNfit {
    ghost from_gives = { λ _ error. error ≡ Memory };

    fn from(_: AllocError) -> ReadNfit {
        ReadNfit::Memory
    }
}
