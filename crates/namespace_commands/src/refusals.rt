//! Why commands have no answer.

use view_types::Refusal;

/// Why a command has no answer.
pub(crate) enum Unanswered {
    Refused(Refusal),
    Memory,
}
