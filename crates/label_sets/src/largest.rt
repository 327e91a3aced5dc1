//! How much room the free space of a region has.

ghost use Rattle.std.specs.Prelude.{◌≡◌, IfOk};
ghost use Rattle.label_sets.specs.Largest.{TellsLargest};

use crate::sets::Sets;
use crate::views::place_of;
use std::alloc::{AllocError, Global};

/// What namespaces are aligned to, in bytes of each member's part: 2 MiB.
pub(crate) const ALIGNMENT: u64 = 0x20_0000;

impl Sets {
    /// The size in bytes of the greatest namespace that the free extents of a region have room for, or the greatest
    /// number below 2^64 where it is above. `None` exactly where the platform has no such region. Where the free
    /// extents are not known it builds and keeps them.
    pub fn largest(&mut self, alloc: Global, index: u16) -> Result<Option<u64>, AllocError>
        ensures same { self.new ≡ self.old }
        ensures most { IfOk result (TellsLargest self.old index) }
    {
        let Some(place) = place_of(&self.regions, index) else {
            return Ok(None);
        };
        match self.free.build(alloc, &self.modules, &self.regions) {
            Ok(()) => (),
            Err(fault) => return Err(fault),
        }
        let ways = self.regions[place].region.members.len() as u64;
        match self.free.at(place) {
            Some(free) => Ok(Some(ways.saturating_mul(free.largest(ALIGNMENT)))),
            // They are built.
            None => unreachable!(),
        }
    }
}
