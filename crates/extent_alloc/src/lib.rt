//! The free extents of a whole: found, carved and released, in a doubly linked list over a pool of nodes.
#![tactic(auto)]

mod chain;
mod cuts;
mod extents;
mod fits;
mod gaps;
mod iter;
mod pool;
mod steps;

pub use extents::Extents;
pub use iter::Iter;
pub use steps::Steps;
