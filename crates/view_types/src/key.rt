//! The keys of commands.

/// A key of a command, as in `key=value`.
#[derive(Clone, Copy, Debug, PartialEq, Eq)]
pub enum Key {
    /// The device handle of a module.
    Dimm,
    /// The index of a region.
    Region,
    Size,
    Name,
    Mode,
    SectorSize,
    Uuid,
    /// A namespace, by its uuid or its name.
    Namespace,
    /// A system physical address.
    Spa,
    /// A device physical address.
    Dpa,
    Length,
    Text,
}

impl Key {
    ghost use Rattle.std.specs.Prelude.{◌≡◌};
    ghost use Rattle.view_types.specs.Keys.{text_of};

    /// The text of the key, as it stands before the `=`.
    pub fn text(self) -> &'static str
        ensures { result.now ≡ text_of self }
    {
        match self {
            Key::Dimm => "dimm",
            Key::Region => "region",
            Key::Size => "size",
            Key::Name => "name",
            Key::Mode => "mode",
            Key::SectorSize => "sector-size",
            Key::Uuid => "uuid",
            Key::Namespace => "namespace",
            Key::Spa => "spa",
            Key::Dpa => "dpa",
            Key::Length => "length",
            Key::Text => "text",
        }
    }
}
