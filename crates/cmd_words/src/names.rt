//! The names of namespaces.

ghost use Rattle.std.specs.Prelude.{◌≡◌, ◌≤◌, length};
ghost use Rattle.cmd_words.specs.Names.{is_name_character, is_name_text, name, with_zeros};

use crate::uuids::read_uuid;

/// The most characters of a name.
const MOST_CHARACTERS: usize = 63;

/// The bytes that a name is kept in.
pub(crate) const NAME_BYTES: usize = 64;

/// A name: 0 to 63 letters, digits, dots, underscores and hyphens, with zeros behind them. `None` exactly where the
/// text is none, or has the form of a uuid.
pub(crate) fn read_name(text: &str) -> Option<[u8; NAME_BYTES]>
    ensures { result ≡ name text.now }
{
    if !is_name_text(text) || read_uuid(text).is_some() {
        return None;
    }
    Some(with_zeros(text))
}

/// Whether a text has no more characters than a name, and only such as names have.
pub(crate) fn is_name_text(text: &str) -> bool
    ensures { result ≡ is_name_text text.now }
{
    text.len() <= MOST_CHARACTERS && text.as_bytes().iter().all(|byte| is_name_character(*byte))
}

fn is_name_character(byte: u8) -> bool
    ensures { result ≡ is_name_character byte }
{
    byte.is_ascii_alphanumeric() || matches!(byte, b'.' | b'_' | b'-')
}

/// A text with zeros behind it.
pub(crate) fn with_zeros(text: &str) -> [u8; NAME_BYTES]
    requires { length text.now ≤ NAME_BYTES }
    ensures { result ≡ with_zeros text.now }
{
    let mut bytes = [0; NAME_BYTES];
    bytes[..text.len()].copy_from_slice(text.as_bytes());
    bytes
}
