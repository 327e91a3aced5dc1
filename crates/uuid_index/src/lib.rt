//! The live labels of a region's modules, found by their uuids.
#![tactic(auto)]

mod entry;
mod index;

pub use entry::Entry;
pub use index::{Found, Index};
