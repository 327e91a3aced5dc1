//! The values that pieces give to keys.

ghost use Rattle.std.specs.Prelude.{◌≡◌, ◌+◌, ◌^◌};
ghost use Rattle.cmd_words.specs.Pieces.{pieces};
ghost use Rattle.cmd_words.specs.Values.{mode_or_raw, name_for, name_or_empty, namespace_for, number_for};
ghost use Rattle.cmd_words.specs.Values.{optional_region};
ghost use Rattle.cmd_words.specs.Values.{optional_uuid, sector_size_or_512, size_for, uuid_for};

use crate::keys::given;
use crate::modes::{read_mode, read_sector_size};
use crate::name_keys::{NameKey, read_name_key};
use crate::names::{NAME_BYTES, read_name};
use crate::numbers::{read_number, read_size};
use crate::uuids::read_uuid;
use view_types::{Key, Mode, WordFault};

/// The index of a region.
pub(crate) fn region(text: &str) -> Result<u16, WordFault>
    ensures { result ≡ number_for Key.Region (2 ^ 16) (pieces text.now) }
{
    Ok(number(Key::Region, u16::MAX as u64, text)? as u16)
}

/// The index of a region, where a piece gives one.
pub(crate) fn optional_region(text: &str) -> Result<Option<u16>, WordFault>
    ensures { result ≡ optional_region (pieces text.now) }
{
    match given(Key::Region, text) {
        None => Ok(None),
        Some(_) => Ok(Some(region(text)?)),
    }
}

/// A device handle.
pub(crate) fn dimm(text: &str) -> Result<u32, WordFault>
    ensures { result ≡ number_for Key.Dimm (2 ^ 32) (pieces text.now) }
{
    Ok(number(Key::Dimm, u32::MAX as u64, text)? as u32)
}

/// A physical address.
pub(crate) fn address(key: Key, text: &str) -> Result<u64, WordFault>
    ensures { result ≡ number_for key (2 ^ 64) (pieces text.now) }
{
    number(key, u64::MAX, text)
}

/// The number of a key, up to a greatest one.
fn number(key: Key, most: u64, text: &str) -> Result<u64, WordFault>
    ensures { result ≡ number_for key (most + 1) (pieces text.now) }
{
    match given(key, text).and_then(read_number) {
        Some(number) if number <= most => Ok(number),
        _ => Err(WordFault::Value { key }),
    }
}

/// The size of a key.
pub(crate) fn size(key: Key, text: &str) -> Result<u64, WordFault>
    ensures { result ≡ size_for key (pieces text.now) }
{
    given(key, text)
        .and_then(read_size)
        .ok_or(WordFault::Value { key })
}

/// What a namespace is told by.
pub(crate) fn namespace(text: &str) -> Result<NameKey, WordFault>
    ensures { result ≡ namespace_for (pieces text.now) }
{
    given(Key::Namespace, text)
        .and_then(read_name_key)
        .ok_or(WordFault::Value {
            key: Key::Namespace,
        })
}

/// The name of a namespace.
pub(crate) fn name(text: &str) -> Result<[u8; NAME_BYTES], WordFault>
    ensures { result ≡ name_for (pieces text.now) }
{
    given(Key::Name, text)
        .and_then(read_name)
        .ok_or(WordFault::Value { key: Key::Name })
}

/// The name of a namespace, empty where no piece gives one.
pub(crate) fn name_or_empty(text: &str) -> Result<[u8; NAME_BYTES], WordFault>
    ensures { result ≡ name_or_empty (pieces text.now) }
{
    match given(Key::Name, text) {
        None => Ok([0; NAME_BYTES]),
        Some(_) => name(text),
    }
}

/// The mode of a namespace, raw where no piece gives one.
pub(crate) fn mode_or_raw(text: &str) -> Result<Mode, WordFault>
    ensures { result ≡ mode_or_raw (pieces text.now) }
{
    match given(Key::Mode, text) {
        None => Ok(Mode::Raw),
        Some(mode) => read_mode(mode).ok_or(WordFault::Value { key: Key::Mode }),
    }
}

/// The size of a sector in bytes, 512 where no piece gives one.
pub(crate) fn sector_size_or_512(text: &str) -> Result<u64, WordFault>
    ensures { result ≡ sector_size_or_512 (pieces text.now) }
{
    match given(Key::SectorSize, text) {
        None => Ok(512),
        Some(size) => read_sector_size(size).ok_or(WordFault::Value {
            key: Key::SectorSize,
        }),
    }
}

/// A uuid.
pub(crate) fn uuid(text: &str) -> Result<[u8; 16], WordFault>
    ensures { result ≡ uuid_for (pieces text.now) }
{
    given(Key::Uuid, text)
        .and_then(read_uuid)
        .ok_or(WordFault::Value { key: Key::Uuid })
}

/// A uuid, where a piece gives one.
pub(crate) fn optional_uuid(text: &str) -> Result<Option<[u8; 16]>, WordFault>
    ensures { result ≡ optional_uuid (pieces text.now) }
{
    match given(Key::Uuid, text) {
        None => Ok(None),
        Some(_) => Ok(Some(uuid(text)?)),
    }
}
