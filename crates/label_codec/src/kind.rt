//! The kinds of label storage areas.

/// What the label storage area of a module is.
#[derive(Clone, Copy, Debug, PartialEq, Eq)]
pub enum AreaKind {
    /// There is no area.
    Missing,
    /// No area can have its size.
    WrongSize,
    /// An index block is usable.
    Ready,
    /// No index block is usable, and a signed one stands at one of their places.
    Foreign,
    /// No signed index block stands at one of their places.
    Uninit,
}

impl AreaKind {
    ghost use Rattle.std.specs.Prelude.{◌≡◌};
    ghost use Rattle.label_codec.specs.ModuleLabels.{is_ready};

    /// The area has a usable index block, and so slots and labels.
    pub fn is_ready(self) -> bool
        ensures { result ≡ is_ready self }
    {
        matches!(self, AreaKind::Ready)
    }
}
