//! The index blocks of label storage areas: where they stand, which of them are usable, and which slots they mark as
//! free (UEFI 2.7, section 13.19).
#![tactic(auto)]

mod bitmap;
mod blocks;
mod geometry;
mod write;

pub use bitmap::{count_free, first_free, is_free, set_free, set_used};
pub use blocks::{BlockKind, current, next_seq, read_block};
pub use geometry::{
    GREATEST_AREA, Geometry, LABEL_BYTES, LEAST_AREA, OLD_LABEL_BYTES, Place, SIZE_UNIT,
    WINDOW_BYTES,
};
pub use write::write_block;
