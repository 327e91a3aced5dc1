//! Why a region cannot be used.

/// Why a region cannot be used: the first of these rules that applies, in this order.
#[derive(Clone, Copy, Debug, PartialEq, Eq)]
pub enum Rule {
    /// No mapping names the range.
    NoMapping,
    /// More than 16 mappings name it.
    TooManyWays,
    /// The range's length is 0.
    Empty,
    /// Two members have different sizes.
    SizesDiffer,
    /// The number of members times the size of a member is not the range's length.
    CapacityDiffers,
    /// Base plus length of the range, or a member's module address base plus size, exceeds 2^63.
    Overflow,
    /// Two members have one device handle.
    ModuleTwice,
    /// Two members have one region offset.
    OffsetTwice,
    /// A member's control region index names no control region.
    NoControl,
    /// A member's module address range meets that of another mapping, on the same handle, of another region.
    DpaOverlap,
}
