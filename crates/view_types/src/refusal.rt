//! Why a command is refused.

use crate::rule::Rule;
use crate::states::Status;
use crate::translation::TranslateFault;
use crate::word_fault::WordFault;

/// Why a command is refused. A refused command changes nothing.
#[derive(Clone, Copy, Debug, PartialEq, Eq)]
pub enum Refusal {
    /// The line is no command.
    Words(WordFault),
    /// No region has this index.
    UnknownRegion { region: u16 },
    /// No module has this device handle.
    UnknownDimm { dimm: u32 },
    /// The region cannot be used.
    Unusable { rule: Rule },
    /// The region, or the area of the module, is not Ready.
    NotReady { status: Status },
    /// A namespace of the region is pending, and this module has no spare slot for the labels that recovery writes. It
    /// is the first such module by position.
    Unhealed { dimm: u32 },
    /// No namespace of the region has this uuid or this name.
    UnknownNamespace,
    /// So many namespaces of the region have this name.
    Ambiguous { count: u32 },
    /// A label with this uuid is not to be changed.
    ReadOnly { uuid: [u8; 16] },
    /// The size is 0, or no multiple of this number of bytes.
    BadSize { unit: u64 },
    /// The namespace of the region with this uuid has the name. Of several it is the first by offset.
    NameInUse { uuid: [u8; 16] },
    /// A label in the area of this module has the uuid. Of several modules it is that of the least handle.
    UuidInUse { dimm: u32 },
    /// The greatest namespace that the region has room for has so many bytes.
    NoSpace { largest: u64 },
    /// The area of the module has too few spare slots. It is the first such module by position.
    NoSlots { dimm: u32, spare: u32 },
    /// The module holds no label with this uuid.
    NotHeld,
    /// The area of the module is Ready already.
    AlreadyReady { dimm: u32 },
    /// Addresses of the region cannot be translated.
    NoTranslation { fault: TranslateFault },
    /// The address is outside the region's range or the member's part of its module.
    Outside,
    /// The module is no member of the region.
    NotInRegion { dimm: u32 },
}
