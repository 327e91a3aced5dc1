//! A session: the state that the label storage areas of a platform's modules stand for, read once, and the commands on
//! it (UEFI 2.7, section 13.19).
#![tactic(auto)]

mod commands;
mod faults;
mod laws;
mod session;

pub use faults::{OpenFault, RunFault};
pub use laws::one_reply;
pub use session::Session;
