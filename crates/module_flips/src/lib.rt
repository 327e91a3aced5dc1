//! One flip of the label storage area of one module among all, and the indexes of regions that follow it. A sweep is
//! one: it frees the junk and the dead labels of a module, and may give up its held labels with a uuid (UEFI 2.7, section
//! 13.19).
#![tactic(auto)]

mod flips;
mod lists;
mod release;
mod sweep;

pub use flips::{AreaFailed, free_at, put_at};
pub use release::release_labels;
pub use sweep::sweep_labels;
