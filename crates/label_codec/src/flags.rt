//! The flags of a label.

use crate::label::Label;

/// ROLABEL: the label is not to be changed.
pub const READ_ONLY: u32 = 0x1;

/// LOCAL: the label is of a namespace of one module alone.
pub const LOCAL: u32 = 0x2;

/// UPDATING: the label's set is being changed.
pub const UPDATING: u32 = 0x8;

impl Label {
    ghost use Rattle.std.specs.Prelude.{◌≡◌};
    ghost use Rattle.label_codec.specs.Flags.{is_local, is_read_only, is_updating};

    /// The label has the flag ROLABEL.
    pub fn is_read_only(&self) -> bool
        ensures { result ≡ is_read_only self.now }
    {
        self.flags & READ_ONLY != 0
    }

    /// The label has the flag LOCAL.
    pub fn is_local(&self) -> bool
        ensures { result ≡ is_local self.now }
    {
        self.flags & LOCAL != 0
    }

    /// The label has the flag UPDATING.
    pub fn is_updating(&self) -> bool
        ensures { result ≡ is_updating self.now }
    {
        self.flags & UPDATING != 0
    }
}
