//! How the bytes of a namespace are used: its mode, and the size of its sectors.

ghost use Rattle.std.specs.Prelude.{◌≡◌};
ghost use Rattle.cmd_words.specs.Modes.{mode, sector_size};

use view_types::Mode;

/// A mode. `None` exactly where the text is none.
pub(crate) fn read_mode(text: &str) -> Option<Mode>
    ensures { result ≡ mode text.now }
{
    match text {
        "raw" => Some(Mode::Raw),
        "sector" => Some(Mode::Sector),
        "fsdax" => Some(Mode::Fsdax),
        "devdax" => Some(Mode::Devdax),
        _ => None,
    }
}

/// The size of a sector in bytes: 512 or 4096, in exactly these digits.
pub(crate) fn read_sector_size(text: &str) -> Option<u64>
    ensures { result ≡ sector_size text.now }
{
    match text {
        "512" => Some(512),
        "4096" => Some(4096),
        _ => None,
    }
}
