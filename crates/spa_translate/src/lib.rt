//! The addresses of a region (SPA) translated to those of its modules (DPA) and back (ACPI 6.2, sections 5.2.25.3 and
//! 5.2.25.4): which regions can be translated, and one bijection between the bytes of the range and those
//! of the members'
//! parts.
#![tactic(auto)]

mod faults;
mod laws;
mod places;
mod run_laws;
mod runs;
mod strand;
mod weave;

pub use faults::CheckFault;
pub use laws::{intervals_apart, one_to_one, whole_intervals};
pub use run_laws::one_list_of_runs;
pub use strand::Strand;
pub use weave::Weave;
