//! Which namespaces overlap.

ghost use Rattle.std.specs.Prelude.{◌≡◌, ◌+◌, map, nat_lt};
ghost use Rattle.label_table.specs.Namespaces.{first_clash, first_clash_from, overlaps};
ghost use Rattle.label_table.specs.Statuses.{status_by_clash};
ghost use Rattle.region_labels.specs.Statuses.{shown_status, space_in};

use view_types::{Namespace, Status};

/// The status of a region with these namespaces, whose modules are all Ready.
pub(crate) fn clash_status(spaces: &[Namespace]) -> Status
    ensures { result ≡ shown_status (status_by_clash (first_clash (map space_in spaces.now))) }
{
    match first_clash(spaces) {
        Some(clash) => {
            let first = clash.0;
            let second = clash.1;
            Status::Clash { first, second }
        }
        None => Status::Ready,
    }
}

/// The uuids of the first two neighbours that overlap.
fn first_clash(spaces: &[Namespace]) -> Option<([u8; 16], [u8; 16])>
    ensures { result ≡ first_clash (map space_in spaces.now) }
{
    match spaces {
        [] => None,
        [first, others @ ..] => clash_behind(first, others),
    }
}

/// The first two neighbours among one and those behind it.
fn clash_behind(first: &Namespace, others: &[Namespace]) -> Option<([u8; 16], [u8; 16])>
    ensures { result ≡ first_clash_from (space_in first.now) (map space_in others.now) }
{
    let mut space = *first;
    for next in others {
        if overlap(&space, next) {
            return Some((space.uuid, next.uuid));
        }
        space = *next;
    }
    None
}

/// Two ranges have an offset in common.
fn overlap(a: &Namespace, b: &Namespace) -> bool
    ensures { result ≡ overlaps (space_in a.now) (space_in b.now) }
{
    begins_before_end(a.offset, b) && begins_before_end(b.offset, a)
}

/// The offset is below the end of the range.
fn begins_before_end(offset: u64, space: &Namespace) -> bool
    ensures { result ≡ nat_lt offset (space.now.offset + space.now.length) }
{
    offset < space.offset || offset - space.offset < space.length
}
