//! The step of each command that changes the label storage areas, on the table that their labels stand for (UEFI 2.7,
//! section 13.19): why it is refused, what it changes, and its reply.
#![tactic(auto)]

mod laws;
mod new_namespace;
mod plain;
mod releases;

pub use laws::{
    changed_laws, create_laws, destroy_laws, freed_laws, initialise_laws, made_laws, name_laws,
    range_laws, release_laws, rename_laws, some_step_laws, step_laws, unrefused_laws,
};
pub use new_namespace::NewNamespace;
pub use plain::{bad_size, initialise, no_slots, spare, uuid_in_use};
pub use releases::{held_count, held_fixed, is_held, not_held, region_lacks_area, release_refusal};
