//! The layouts of an area, by its size.

ghost use Rattle.std.specs.Prelude.{◌≡◌, IfSome};
ghost use Rattle.label_area.specs.Layouts.{AreLayouts, layouts_of};

use index_block::{Geometry, LABEL_BYTES, OLD_LABEL_BYTES};

/// The layouts that an area can have: its own, for labels of 256 bytes, and that for labels of version 1.1, which have
/// 128.
#[derive(Clone, Copy)]
pub struct Layouts {
    pub own: Geometry,
    pub old: Geometry,
}

impl Layouts {
    /// The layouts of an area of `size` bytes. `None` exactly where no area can have that size.
    pub(crate) fn of(size: u64) -> Option<Layouts>
        ensures exact { result ≡ layouts_of size }
        ensures sound { IfSome result (AreLayouts size) }
    {
        let own = Geometry::of(size, LABEL_BYTES)?;
        let old = Geometry::of(size, OLD_LABEL_BYTES)?;
        Some(Layouts { own, old })
    }
}
