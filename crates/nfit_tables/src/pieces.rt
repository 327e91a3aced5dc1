//! What a table holds.

use view_types::List;

/// An NVDIMM Firmware Interface Table: its header, and its structures in their order.
#[derive(Drop)]
pub struct Nfit {
    pub header: Header,
    pub pieces: List<Piece>,
}

/// The fields of the header that its structures don't determine (ACPI 6.2, section 5.2.25).
#[derive(Clone, Copy, Debug, PartialEq, Eq)]
pub struct Header {
    pub oem_id: [u8; 6],
    pub oem_table: [u8; 8],
    pub oem_revision: u32,
    pub creator: u32,
    pub creator_revision: u32,
    pub reserved: u32,
}

/// A structure of the table. Its tail is what stands behind the fields of its type.
#[derive(Drop)]
pub enum Piece {
    Range(RangePiece),
    Mapping(MappingPiece),
    Interleave(InterleavePiece),
    Control(ControlPiece),
    Kept(KeptPiece),
}

/// A system physical address range (type 0, section 5.2.25.2). Base and length are in bytes.
#[derive(Drop)]
pub struct RangePiece {
    pub index: u16,
    pub flags: u16,
    pub reserved: u32,
    pub proximity: u32,
    pub type_guid: [u8; 16],
    pub base: u64,
    pub length: u64,
    pub attributes: u64,
    pub tail: List<u8>,
}

/// A region of a module in an address range (type 1, section 5.2.25.3). Size, offset and address are in bytes.
#[derive(Drop)]
pub struct MappingPiece {
    pub device_handle: u32,
    pub physical_id: u16,
    pub region_id: u16,
    pub range_index: u16,
    pub control_index: u16,
    pub region_size: u64,
    pub region_offset: u64,
    pub module_address_base: u64,
    pub interleave_index: u16,
    pub ways: u16,
    pub state_flags: u16,
    pub reserved: u16,
    pub tail: List<u8>,
}

/// How lines of a module are interleaved (type 2, section 5.2.25.4). The line size is in bytes, and the offsets of
/// lines are in lines.
#[derive(Drop)]
pub struct InterleavePiece {
    pub index: u16,
    pub reserved: u16,
    pub line_size: u32,
    pub lines: List<u32>,
    pub tail: List<u8>,
}

/// A control region of a module (type 4, section 5.2.25.6).
#[derive(Drop)]
pub struct ControlPiece {
    pub index: u16,
    pub vendor: u16,
    pub device: u16,
    pub revision: u16,
    pub subsystem_vendor: u16,
    pub subsystem_device: u16,
    pub subsystem_revision: u16,
    pub valid_fields: u8,
    pub manufacturing_location: u8,
    pub manufacturing_date: u16,
    pub reserved: u16,
    pub serial_number: u32,
    pub format_code: u16,
    pub number_of_windows: u16,
    pub tail: List<u8>,
}

/// A structure of any other type, whose bytes behind its type and length are kept.
#[derive(Drop)]
pub struct KeptPiece {
    pub kind: u16,
    pub tail: List<u8>,
}
