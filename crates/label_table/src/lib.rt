//! What the labels of all modules stand for: namespaces, held space and free space, as one table (UEFI 2.7, section
//! 13.19).
#![tactic(auto)]

mod belonging;
mod laws;
mod plain;

pub use belonging::{belongs, has_uuid, offset_in, region_of};
pub use laws::{
    dead_label_laws, division_laws, flip_laws, region_laws, settling_laws, status_laws, table_laws,
};
pub use plain::{ModuleLabels, all_ready, is_dead, is_doubled, is_whole};
