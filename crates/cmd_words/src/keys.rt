//! The keys that pieces give values to.

ghost use Rattle.std.specs.Prelude.{◌≡◌, find, take};
ghost use Rattle.std.specs.List.{list_any};
ghost use Rattle.std.specs.Option.{option_copied};
ghost use Rattle.cmd_words.specs.Pieces.{pieces};
ghost use Rattle.cmd_words.specs.Keys.{gives, given, key_of, value_for};

use crate::pieces::Pieces;
use view_types::Key;

/// The value that a piece `key=value` gives to a key. It is split at its first `=`.
fn value_for(key: Key, piece: &str) -> Option<&str>
    ensures { option_copied result ≡ value_for key piece.now }
{
    let (given, value) = piece.split_once('=')?;
    (given == key.text()).then_some(value)
}

/// The one of these keys that a piece gives a value to.
pub(crate) fn key_of(keys: &[Key], piece: &str) -> Option<Key>
    ensures { result ≡ key_of keys.now piece.now }
{
    keys.iter()
        .copied()
        .find(|key| value_for(*key, piece).is_some())
}

/// Whether one of the first pieces of a text, so many, gives a value to a key.
pub(crate) fn is_given(key: Key, text: &str, count: usize) -> bool
    ensures { result ≡ list_any (gives key) (take count (pieces text.now)) }
{
    Pieces(text)
        .take(count)
        .any(|piece| value_for(key, piece).is_some())
}

/// The value that the first piece of a text that gives one to a key gives to it.
pub(crate) fn given(key: Key, text: &str) -> Option<&str>
    ensures { option_copied result ≡ given key (pieces text.now) }
{
    let piece = Pieces(text).find(|piece| value_for(key, piece).is_some())?;
    value_for(key, piece)
}
