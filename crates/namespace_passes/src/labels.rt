//! Which labels need healing, and what heals them.

ghost use Rattle.std.specs.Prelude.{◌≡◌};
ghost use Rattle.label_codec.specs.Names.{name_before_zero};
ghost use Rattle.namespace_passes.specs.Labels.{healed_label, is_alike, needs_healing, same_name};

use label_codec::{Label, UPDATING};

/// The label is being changed, or differs from the leading one: in name, sector size, abstraction or length.
pub(crate) fn needs_healing(leading: &Label, own: &Label) -> bool
    ensures { result ≡ needs_healing leading.now own.now }
{
    own.is_updating() || !is_alike(leading, own)
}

fn is_alike(leading: &Label, own: &Label) -> bool
    ensures { result ≡ is_alike leading.now own.now }
{
    same_name(&leading.name, &own.name)
        && own.lba_size == leading.lba_size
        && leading.abstraction == own.abstraction
        && own.raw_size == leading.raw_size
}

/// The label with these values of the leading one, and no longer being changed.
pub(crate) fn healed_label(leading: &Label, own: &Label) -> Label
    ensures { result ≡ healed_label leading.now own.now }
{
    Label {
        name: leading.name,
        flags: own.flags & !UPDATING,
        lba_size: leading.lba_size,
        raw_size: leading.raw_size,
        abstraction: leading.abstraction,
        ..*own
    }
}

/// The names are equal up to the first zero byte of each.
fn same_name(one: &[u8; 64], other: &[u8; 64]) -> bool
    ensures { result ≡ same_name one.now other.now }
{
    before_zero(one) == before_zero(other)
}

/// The bytes before the first zero byte.
fn before_zero(name: &[u8; 64]) -> &[u8]
    ensures { result.now ≡ name_before_zero name.now }
{
    let end = name
        .iter()
        .position(|byte| *byte == 0)
        .unwrap_or(name.len());
    &name[..end]
}
