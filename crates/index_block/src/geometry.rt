//! Where index blocks and slots stand.

ghost use Rattle.std.specs.Prelude.{◌≡◌, ◌≤◌, length, IfSome};

/// The layout of an area: the sizes of a label and of an index block in bytes, and the number of slots.
#[derive(Clone, Copy, Debug, PartialEq, Eq)]
pub struct Geometry {
    pub label: u32,
    pub block: u32,
    pub slots: u32,
}

/// One of the two places of index blocks: offset 0, or right behind the first block.
#[derive(Clone, Copy, Debug, PartialEq, Eq)]
pub enum Place {
    First,
    Second,
}

impl Place {
    ghost use Rattle.index_block.specs.Geometry.{other_place};

    /// The other one of the two.
    pub fn other(self) -> Place
        ensures { result ≡ other_place self }
    {
        match self {
            Place::First => Place::Second,
            Place::Second => Place::First,
        }
    }
}

/// The least size of an area, in bytes.
pub const LEAST_AREA: u64 = 1024;

/// The greatest size of an area, in bytes.
pub const GREATEST_AREA: u64 = 1_048_576;

/// What the sizes of areas and of index blocks are multiples of, in bytes.
pub const SIZE_UNIT: u64 = 256;

/// The bytes of a label of version 1.2.
pub const LABEL_BYTES: u32 = 256;

/// The bytes of a label of version 1.1.
pub const OLD_LABEL_BYTES: u32 = 128;

/// The offset of the bitmap in an index block, in bytes.
pub(crate) const BITMAP_AT: usize = 72;

/// How many bytes are looked at from the place of an index block on, at most.
pub const WINDOW_BYTES: usize = 4096;

impl Geometry {
    ghost use Rattle.index_block.specs.Geometry.{geometry_of, FitsIn, IsGeometry, place_offset};
    ghost use Rattle.index_block.specs.Blocks.{bitmap_of};

    /// The geometry of an area of `size` bytes with labels of `label` bytes. Areas have 1,024 to 1,048,576 bytes, a
    /// multiple of 256, and labels have 128 or 256. `None` exactly where one of the two sizes is another.
    pub fn of(size: u64, label: u32) -> Option<Geometry>
        ensures exact { result ≡ geometry_of size label }
        ensures label { IfSome result (λ g. g.label ≡ label) }
        ensures geometry { IfSome result IsGeometry }
        ensures fits { IfSome result (FitsIn size) }
    {
        if size < LEAST_AREA || size > GREATEST_AREA || size % SIZE_UNIT != 0 {
            return None;
        }
        if label != OLD_LABEL_BYTES && label != LABEL_BYTES {
            return None;
        }
        let bits = size / u64::from(label);
        let block = (BITMAP_AT as u64 + bits.div_ceil(8)).next_multiple_of(SIZE_UNIT);
        let slots = (size - 2 * block) / u64::from(label);
        Some(Geometry {
            label,
            block: block as u32,
            slots: slots as u32,
        })
    }

    /// The offset of an index block in bytes.
    pub fn place_offset(&self, place: Place) -> u32
        ensures { result ≡ place_offset self.now place }
    {
        match place {
            Place::First => 0,
            Place::Second => self.block,
        }
    }

    /// The bitmap of the index block at the front of a window: a bit for each slot, in whole bytes.
    pub fn bitmap<'a>(&self, window: &'a [u8]) -> &'a [u8]
        requires geometry { IsGeometry self.now }
        requires long { self.now.block ≤ length window.now }
        ensures { result.now ≡ bitmap_of self.now window.now }
    {
        let len = self.slots.div_ceil(8) as usize;
        &window[BITMAP_AT..BITMAP_AT + len]
    }
}
