//! How the bytes of namespaces are used.

/// How the bytes of a namespace are used.
#[derive(Clone, Copy, Debug, PartialEq, Eq)]
pub enum Mode {
    /// As they are.
    Raw,
    /// By sectors, which block translation (BTT) writes whole or not at all.
    Sector,
    /// By a file system with direct access, with page frames (PFN) described in the namespace.
    Fsdax,
    /// By programs with direct access (DAX).
    Devdax,
}

/// The GUIDs of address abstractions (UEFI 2.7, section 13.19), as their bytes stand: none.
const NO_ABSTRACTION: [u8; 16] = [0; 16];

/// Block translation (BTT): 18633BFC-1735-4217-8AC9-17239282D3F8.
const BLOCK_TRANSLATION: [u8; 16] = [
    0xfc, 0x3b, 0x63, 0x18, 0x35, 0x17, 0x17, 0x42, 0x8a, 0xc9, 0x17, 0x23, 0x92, 0x82, 0xd3, 0xf8,
];

/// Page frames (PFN): 266400BA-FB9F-4677-BCB0-968F11D0D225.
const PAGE_FRAMES: [u8; 16] = [
    0xba, 0x00, 0x64, 0x26, 0x9f, 0xfb, 0x77, 0x46, 0xbc, 0xb0, 0x96, 0x8f, 0x11, 0xd0, 0xd2, 0x25,
];

/// Direct access (DAX): 97A86D9C-3CDD-4EDA-986F-5068B4F80088.
const DIRECT_ACCESS: [u8; 16] = [
    0x9c, 0x6d, 0xa8, 0x97, 0xdd, 0x3c, 0xda, 0x4e, 0x98, 0x6f, 0x50, 0x68, 0xb4, 0xf8, 0x00, 0x88,
];

impl Mode {
    ghost use Rattle.std.specs.Prelude.{◌≡◌};
    ghost use Rattle.view_types.specs.Modes.{abstraction_of};

    /// The GUID of the address abstraction that a label has in this mode (UEFI 2.7, section 13.19).
    pub fn abstraction(self) -> [u8; 16]
        ensures { result ≡ abstraction_of self }
    {
        match self {
            Mode::Raw => NO_ABSTRACTION,
            Mode::Sector => BLOCK_TRANSLATION,
            Mode::Fsdax => PAGE_FRAMES,
            Mode::Devdax => DIRECT_ACCESS,
        }
    }
}
