//! Labels that are marked as being changed.

ghost use Rattle.std.specs.Prelude.{◌≡◌};
ghost use Rattle.namespace_passes.specs.MarkedLabels.{marked_label, renamed_label};

use label_codec::{Label, UPDATING};

/// The label, as one that is being changed.
pub(crate) fn marked_label(own: &Label) -> Label
    ensures { result ≡ marked_label own.now }
{
    Label {
        flags: own.flags | UPDATING,
        ..*own
    }
}

/// The label with another name, as one that is being changed.
pub(crate) fn renamed_label(own: &Label, name: &[u8; 64]) -> Label
    ensures { result ≡ renamed_label name.now own.now }
{
    Label {
        name: *name,
        ..marked_label(own)
    }
}
