//! The uuids of new namespaces for which commands give none.

ghost use Rattle.std.specs.Prelude.{◌≡◌};
ghost use Rattle.command_runs.specs.Uuids.{own_uuid};

use report_json::ShortText;
use uuid::Uuid;

/// The uuid of a namespace that the line with a number makes, counted from 1 (RFC 4122, section 4.3): that of version 5
/// whose namespace is the seed and whose name is the number in decimal.
pub fn own_uuid(seed: u128, line: u64) -> Uuid
    ensures { result ≡ own_uuid seed line }
{
    let mut name = ShortText::new();
    name.push_decimal("", line);
    Uuid::new_v5(&Uuid::from_u128(seed), name.as_bytes())
}
