//! The labels of namespaces as bytes, how their names are printed, and what a module's area stands for: its kind, and
//! its labels by slot (UEFI 2.7, section 13.19).
#![tactic(auto)]

mod flags;
mod kind;
mod label;
mod names;

pub use flags::{LOCAL, READ_ONLY, UPDATING};
pub use kind::AreaKind;
pub use label::{LABEL_LEN, Label, read_label, write_label};
pub use names::name_text;
