//! The recovery of a region before a change: its modules are swept, and its pending namespaces are healed.
#![tactic(auto)]

mod heals;
mod region;
mod sweeps;

pub use region::{RecoverFault, recover};
