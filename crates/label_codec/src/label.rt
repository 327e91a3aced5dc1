//! A label, and how it is read and written.

ghost use Rattle.std.specs.Prelude.{◌≡◌, length, IfSome, Some};
ghost use Rattle.byte_ranges.specs.Ranges.{with_fields};
ghost use Rattle.label_codec.specs.Labels.{fields_of, FitsNamespaceFields, FitsPartFields, HasZerosReserved, is_label};
ghost use Rattle.label_codec.specs.Labels.{label_len, label_of, label_text, namespace_fields, part_fields};

use byte_ranges::{array_at, put, put_u16, put_u32, put_u64, u16_at, u32_at, u64_at};
use fletcher64::{has_checksum, put_checksum};

/// The bytes of a label, and of its slot.
pub const LABEL_LEN: usize = 256;

/// A label of version 1.2, as it stands in a slot of 256 bytes.
#[derive(Clone, Copy, Debug, PartialEq, Eq)]
pub struct Label {
    /// The uuid of the namespace, in the order in which its bytes stand.
    pub uuid: [u8; 16],
    /// The name, which ends at its first zero byte, or with the 64th.
    pub name: [u8; 64],
    /// ROLABEL is 0x1, LOCAL 0x2 and UPDATING 0x8.
    pub flags: u32,
    /// How many labels the set has, one for each module.
    pub nlabel: u16,
    /// The position of the module in the interleave set, from 0.
    pub position: u16,
    /// The cookie of the interleave set.
    pub cookie: u64,
    /// The size of a sector in bytes.
    pub lba_size: u64,
    /// The device physical address at which the label's part of the namespace begins, in bytes.
    pub dpa: u64,
    /// The size of that part in bytes.
    pub raw_size: u64,
    /// The number of the slot that the label stands in.
    pub slot: u32,
    /// The alignment that the namespace's data prefers: a hint.
    pub alignment: u8,
    /// The GUIDs of the range's type and of the namespace's abstraction, in the form of EFI.
    pub type_guid: [u8; 16],
    pub abstraction: [u8; 16],
}

// The offsets of the fields, in bytes.
const UUID_AT: usize = 0;

const NAME_AT: usize = 16;

const FLAGS_AT: usize = 80;

const NLABEL_AT: usize = 84;

const POSITION_AT: usize = 86;

const COOKIE_AT: usize = 88;

const LBA_SIZE_AT: usize = 96;

const DPA_AT: usize = 104;

const RAW_SIZE_AT: usize = 112;

const SLOT_AT: usize = 120;

const ALIGNMENT_AT: usize = 124;

const TYPE_GUID_AT: usize = 128;

const ABSTRACTION_AT: usize = 144;

const LABEL_CHECKSUM_AT: usize = 248;

/// The label that stands in a slot. `None` exactly where the checksum is wrong, or the bytes are the label of another
/// slot.
pub fn read_label(bytes: &[u8], slot: u32) -> Option<Label>
    requires { length bytes.now ≡ label_len }
    ensures exact { result ≡ label_of bytes.now slot }
    // What is read and written again has the same fields.
    ensures again { IfSome result (λ label. label_of (label_text label) slot ≡ Some label) }
{
    if !stands_in(bytes, slot) {
        return None;
    }
    Some(fields(bytes))
}

/// Whether the bytes are a label with a right checksum and this slot number.
#[tactic(auto, unfolding(crate::specs::Labels::is_label))]
fn stands_in(bytes: &[u8], slot: u32) -> bool
    requires { length bytes.now ≡ label_len }
    ensures { result ≡ is_label bytes.now slot }
{
    has_checksum(bytes, LABEL_CHECKSUM_AT) && u32_at(bytes, SLOT_AT) == slot
}

#[tactic(auto, unfolding(crate::specs::Labels::fields_of))]
fn fields(bytes: &[u8]) -> Label
    requires { length bytes.now ≡ label_len }
    ensures fields { result ≡ fields_of bytes.now }
    ensures namespace { FitsNamespaceFields result }
    ensures part { FitsPartFields result }
{
    Label {
        uuid: array_at(bytes, UUID_AT),
        name: array_at(bytes, NAME_AT),
        flags: u32_at(bytes, FLAGS_AT),
        nlabel: u16_at(bytes, NLABEL_AT),
        position: u16_at(bytes, POSITION_AT),
        cookie: u64_at(bytes, COOKIE_AT),
        lba_size: u64_at(bytes, LBA_SIZE_AT),
        dpa: u64_at(bytes, DPA_AT),
        raw_size: u64_at(bytes, RAW_SIZE_AT),
        slot: u32_at(bytes, SLOT_AT),
        alignment: bytes[ALIGNMENT_AT],
        type_guid: array_at(bytes, TYPE_GUID_AT),
        abstraction: array_at(bytes, ABSTRACTION_AT),
    }
}

/// Writes a label over the bytes of its slot, with zeros in the reserved bytes and the checksum that goes with it.
pub fn write_label(label: &Label, into: &mut [u8])
    requires { length into.old ≡ label_len }
    ensures text { into.new ≡ label_text label.now }
    ensures read { label_of into.new label.now.slot ≡ Some label.now }
    ensures reserved { HasZerosReserved into.new }
{
    into.fill(0);
    put_namespace_fields(into, label);
    put_part_fields(into, label);
    put_checksum(into, LABEL_CHECKSUM_AT);
}

/// Writes the fields of the namespace at their offsets.
fn put_namespace_fields(into: &mut [u8], label: &Label)
    requires { length into.old ≡ label_len }
    ensures fields { into.new ≡ with_fields into.old (namespace_fields label.now) }
    ensures fits { FitsNamespaceFields label.now }
{
    put(into, UUID_AT, &label.uuid);
    put(into, NAME_AT, &label.name);
    put_u32(into, FLAGS_AT, label.flags);
    put_u16(into, NLABEL_AT, label.nlabel);
    put_u16(into, POSITION_AT, label.position);
    put_u64(into, COOKIE_AT, label.cookie);
    put_u64(into, LBA_SIZE_AT, label.lba_size);
}

/// Writes the fields of the module's part at their offsets.
fn put_part_fields(into: &mut [u8], label: &Label)
    requires { length into.old ≡ label_len }
    ensures fields { into.new ≡ with_fields into.old (part_fields label.now) }
    ensures fits { FitsPartFields label.now }
{
    put_u64(into, DPA_AT, label.dpa);
    put_u64(into, RAW_SIZE_AT, label.raw_size);
    put_u32(into, SLOT_AT, label.slot);
    put(into, ALIGNMENT_AT, &[label.alignment]);
    put(into, TYPE_GUID_AT, &label.type_guid);
    put(into, ABSTRACTION_AT, &label.abstraction);
}
