//! NVDIMM Firmware Interface Tables (ACPI 6.2, section 5.2.25), read and written, exactly both ways.
#![tactic(auto)]

mod counting;
mod fault;
mod fields;
mod laws;
mod limits;
mod marks;
mod pieces;
mod reading;
mod sums;
mod writing;

pub use fault::{NfitFault, ReadNfit};
pub use laws::one_table;
pub use limits::{MOST_BYTES, MOST_MODULES, MOST_REGIONS};
pub use pieces::{
    ControlPiece, Header, InterleavePiece, KeptPiece, MappingPiece, Nfit, Piece, RangePiece,
};
pub use reading::read_nfit;
pub use writing::{fits, write_nfit};
