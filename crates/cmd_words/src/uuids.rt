//! Uuids in their hyphenated form.

ghost use Rattle.std.specs.Prelude.{◌≡◌};
ghost use Rattle.cmd_words.specs.Uuids.{uuid};

use uuid::Uuid;

/// The characters of a uuid: 32 digits and 4 hyphens.
const CHARACTERS: usize = 36;

/// The bytes of a uuid, in the order of its digits. `None` exactly where the text is none in the hyphenated form.
pub(crate) fn read_uuid(text: &str) -> Option<[u8; 16]>
    ensures { result ≡ uuid text.now }
{
    if text.len() != CHARACTERS {
        return None;
    }
    match Uuid::try_parse(text) {
        Ok(uuid) => Some(uuid.into_bytes()),
        Err(_) => None,
    }
}
