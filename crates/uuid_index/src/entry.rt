//! The entry of a live label, and the order of entries.

use label_codec::Label;

/// A live label: its uuid, the position of its module in the region, and its slot there. Entries are in the order of
/// their uuids, then of their positions, then of their slots.
#[derive(Clone, Copy, Debug, PartialEq, Eq, PartialOrd, Ord)]
pub struct Entry {
    /// The uuid of the namespace, in the order in which its bytes stand.
    pub uuid: [u8; 16],
    /// The position of the module among those of the region, from 0. The label's own position may be another.
    pub position: usize,
    /// The slot of the module's label storage area, from 0.
    pub slot: u32,
}

impl Entry {
    ghost use Rattle.std.specs.Prelude.{◌≡◌};
    ghost use Rattle.std.specs.Ordering.{is_lt};
    ghost use Rattle.uuid_index.specs.Entries.{cmp_to, entry_of, is_of};

    /// The entry of a label in a slot of the module at a position.
    pub fn of(label: &Label, position: usize, slot: u32) -> Entry
        ensures { result ≡ entry_of label.now position slot }
    {
        Entry {
            uuid: label.uuid,
            position,
            slot,
        }
    }

    /// The label has this uuid, and its module this position.
    pub(crate) fn is_of(&self, uuid: &[u8; 16], position: usize) -> bool
        ensures { result ≡ is_of uuid.now position self.now }
    {
        self.uuid == *uuid && self.position == position
    }

    /// The entry stands before those of this uuid at this position.
    pub(crate) fn is_before(&self, uuid: &[u8; 16], position: usize) -> bool
        ensures { result ≡ is_lt (cmp_to uuid.now position self.now) }
    {
        self.uuid
            .cmp(uuid)
            .then(self.position.cmp(&position))
            .is_lt()
    }
}
