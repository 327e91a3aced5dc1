//! The state that the label storage areas of all modules stand for, as it is read, shown and
//! swept (UEFI 2.7, section 13.19).
#![tactic(auto)]

mod dropping;
mod free;
mod healing;
mod init;
mod largest;
mod load;
mod lookups;
mod marking;
mod read;
mod release;
mod renaming;
mod room;
mod sets;
mod staging;
mod statuses;
mod sweep;
mod views;
mod whole_views;

pub use init::SetInitFault;
pub use load::SetFault;
pub use module_flips::AreaFailed;
pub use read::read_state;
pub use sets::Sets;
