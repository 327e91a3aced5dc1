//! Where the parts of an arena stand.

ghost use Rattle.std.specs.Prelude.{◌≡◌, IsTrue};
ghost use Rattle.btt_arena.specs.Layout.{is_size};

/// The layout of an arena. Offsets and sizes are in bytes.
#[derive(Clone, Copy, Debug, PartialEq, Eq)]
pub struct Layout {
    /// The size of the media.
    pub size: u64,
    /// The size of a sector, and of a block.
    pub sector: u32,
    /// How many blocks there are, of which 256 are free.
    pub blocks: u32,
    /// How many sectors there are.
    pub sectors: u32,
    /// Where the map begins: an entry of four bytes for each sector.
    pub map_at: u64,
    /// Where the 256 lanes begin, each of 64 bytes.
    pub log_at: u64,
    /// Where the second info block stands.
    pub info_at: u64,
}

/// Where the blocks begin.
pub const DATA_AT: u64 = 4096;

/// How many lanes there are, and so free blocks.
pub const LANES: u32 = 256;

/// The bytes of the info blocks, of the lanes, and of the map's rounding up.
const BESIDE: u64 = 28_672;

/// Whether a media may have a size: a multiple of 4,096 bytes, from 16 MiB to 512 GiB.
pub fn is_size(size: u64) -> bool
    ensures { result ≡ is_size size }
{
    size % 4096 == 0 && size >= 16_777_216 && size <= 549_755_813_888
}

impl Layout {
    ghost use Rattle.btt_arena.specs.Layout.{is_size, is_sector, layout_of, IsLayout};

    /// The layout of a media of `size` bytes with sectors of `sector` bytes, which are 512 or 4,096.
    pub fn of(size: u64, sector: u32) -> Layout
        requires size { IsTrue (is_size size) }
        requires sector { IsTrue (is_sector sector) }
        ensures exact { result ≡ layout_of size sector }
        ensures layout { IsLayout result }
    {
        let blocks = (size - BESIDE) / u64::from(sector + 4);
        let sectors = blocks - u64::from(LANES);
        let log_at = size - 20_480;
        Layout {
            size,
            sector,
            blocks: blocks as u32,
            sectors: sectors as u32,
            map_at: log_at - (4 * sectors).next_multiple_of(4096),
            log_at,
            info_at: size - 4096,
        }
    }
}
