//! The fields of an NFIT that was read, also those that nothing else shows.

use crate::nfits::{nfit, put_sum, two_modules};
use nfit_tables::{ControlPiece, Header, MappingPiece, Piece, RangePiece, read_nfit};
use std::test::Fail;
use view_types::PERSISTENT_MEMORY;

/// The fields of a table of two modules and a structure of another type, with a number in each field of its header.
#[test]
fn fields(rt: HostRuntime) -> Result<(), Fail> {
    let mut structures = two_modules(rt.alloc())?;
    structures.extend_from_slice(&[9, 0, 6, 0, 0xab, 0xcd])?;
    let mut bytes = nfit(rt.alloc(), &structures)?;
    assert_eq!(rt; bytes.len(), 286);
    for (at, value) in [
        (10, 1),
        (16, 2),
        (24, 3),
        (28, 4),
        (32, 5),
        (36, 6),
        (39, 7),
    ] {
        if let Some(byte) = bytes.get_mut(at) {
            *byte = value;
        }
    }
    put_sum(&mut bytes);
    let nfit = read_nfit(rt.alloc(), &bytes).ok().ok_or("no table")?;
    assert_eq!(rt;
        nfit.header,
        Header {
            oem_id: *b"\x01     ",
            oem_table: *b"\x02       ",
            oem_revision: 3,
            creator: 4,
            creator_revision: 5,
            reserved: 0x0700_0006,
        }
    );
    assert_eq!(rt; nfit.pieces.len(), 7);
    for (i, piece) in nfit.pieces.as_slice().iter().enumerate() {
        assert!(rt; is_expected(i, piece), "at {i}");
    }
    Ok(())
}

/// Whether a structure of that table has the fields that stand there.
fn is_expected(i: usize, piece: &Piece) -> bool {
    match piece {
        Piece::Range(p) => i == 0 && is_first_range(p),
        Piece::Control(p) => (i == 1 && is_control(p, 1)) || (i == 2 && is_control(p, 2)),
        Piece::Interleave(p) => {
            let lines = p.lines.as_slice() == [0, 2].as_slice();
            i == 3
                && [p.index, p.reserved] == [1, 0]
                && p.line_size == 4096
                && lines
                && p.tail.len() == 0
        }
        Piece::Mapping(p) => (i == 4 && is_mapping(p, 0x1, 1, 0))
            || (i == 5 && is_mapping(p, 0x101, 2, 4096)),
        Piece::Kept(p) => i == 6 && p.kind == 9 && p.tail.as_slice() == [0xab, 0xcd].as_slice(),
    }
}

fn is_first_range(p: &RangePiece) -> bool {
    [p.index, p.flags] == [1, 0]
        && [p.reserved, p.proximity] == [0, 0]
        && p.type_guid == PERSISTENT_MEMORY
        && [p.base, p.length, p.attributes] == [4_294_967_296, 137_438_953_472, 0x8008]
        && p.tail.len() == 0
}

fn is_control(p: &ControlPiece, number: u16) -> bool {
    [p.index, p.vendor, p.device, p.revision] == [number, 0x1234, 0, 0]
        && [p.valid_fields, p.manufacturing_location] == [0, 0]
        && [p.manufacturing_date, p.format_code] == [0, 0]
        && p.serial_number == u32::from(number)
        && p.tail.len() == 0
}

fn is_mapping(p: &MappingPiece, handle: u32, control: u16, offset: u64) -> bool {
    p.device_handle == handle
        && [p.range_index, p.control_index, p.interleave_index, p.ways] == [1, control, 1, 2]
        && [p.region_size, p.region_offset, p.module_address_base] == [68_719_476_736, offset, 0]
        && p.tail.len() == 0
}
