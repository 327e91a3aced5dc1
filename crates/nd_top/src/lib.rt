//! One run of the program `nd` over any rig and sources, from the words to what is said and the status. A form of the
//! command line is a module here, and a row of `Request`.
#![tactic(auto)]

mod input;
mod labels;
mod line;
mod runs;
mod top;
mod words;

pub use top::nd_top;
pub use words::dir;
