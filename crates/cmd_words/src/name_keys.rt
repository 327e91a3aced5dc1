//! What tells a namespace of a region from the others.

ghost use Rattle.std.specs.Prelude.{◌≡◌};
ghost use Rattle.cmd_words.specs.NameKeys.{name_key};

use crate::names::{is_name_text, with_zeros};
use crate::uuids::read_uuid;

/// What tells a namespace of a region from the others: its uuid or its name.
#[derive(Clone, Copy, Debug, PartialEq, Eq)]
pub enum NameKey {
    Uuid([u8; 16]),
    /// Not empty, with zeros behind it.
    Name([u8; 64]),
}

/// A uuid where the text has its form, else a name of 1 to 63 characters. `None` exactly where the text is neither.
pub(crate) fn read_name_key(text: &str) -> Option<NameKey>
    ensures { result ≡ name_key text.now }
{
    if let Some(uuid) = read_uuid(text) {
        return Some(NameKey::Uuid(uuid));
    }
    if text.is_empty() || !is_name_text(text) {
        return None;
    }
    Some(NameKey::Name(with_zeros(text)))
}
