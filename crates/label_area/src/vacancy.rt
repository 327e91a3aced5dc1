//! An area without labels, as `init` leaves it.

ghost use Rattle.std.specs.Prelude.{IfOk, IfSome};
ghost use Rattle.label_area.specs.VacantAreas.{IsVacantOf};

use crate::area::Area;
use index_block::{Geometry, LABEL_BYTES, Place};
use std::alloc::{AllocError, Global};

impl Area {
    ghost use Rattle.label_area.specs.LoadedAreas.{IsSound};

    /// What is kept of the area of a module with `size` bytes, once `init` has initialised it: all slots are free.
    /// Nothing is read. It takes the room for all slots. `None` exactly where no area can have that size.
    pub fn vacant(alloc: Global, dimm: u32, size: u64) -> Result<Option<Area>, AllocError>
        ensures vacant { IfOk result (IsVacantOf dimm size) }
        ensures sound { IfOk result (λ area. IfSome area IsSound) }
    {
        let Some(geometry) = Geometry::of(size, LABEL_BYTES) else {
            return Ok(None);
        };
        let free = vec![in alloc; 0xff; geometry.slots.div_ceil(8) as usize]?;
        let labels = Vec::with_capacity(alloc, geometry.slots as usize)?;
        Ok(Some(Area {
            dimm,
            geometry,
            place: Place::First,
            seq: 3,
            free,
            labels,
        }))
    }
}
