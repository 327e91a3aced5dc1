//! Label storage areas: how one is loaded, and what it then shows (UEFI 2.7, section 13.19).
#![tactic(auto)]

mod area;
mod blocks;
mod flip;
mod flip_writes;
mod init;
mod layouts;
mod load;
mod vacancy;

pub use area::Area;
pub use blocks::{BlockKinds, Current};
pub use init::InitFault;
pub use layouts::Layouts;
pub use load::AreaFault;
