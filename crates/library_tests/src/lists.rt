use std::test::Fail;
use view_types::{
    Extent, List, Mode, PERSISTENT_MEMORY, each_maximal, greatest_fits, one_list, persistent_memory,
};

#[test]
fn lists(rt: HostRuntime) -> Result<(), Fail> {
    let mut list = List::new(rt.alloc());
    assert_eq!(rt; list.len(), 0);
    assert_eq!(rt; list.get(0).copied(), None);
    list.push(7)?;
    list.push(9)?;
    assert_eq!(rt; list.len(), 2);
    for (at, item) in [(0, Some(7)), (1, Some(9)), (2, None), (usize::MAX, None)] {
        assert_eq!(rt; list.get(at).copied(), item, "at {at}");
    }
    assert_eq!(rt; list.as_slice(), [7, 9].as_slice());
    let list = List::from_vec(Vec::from_slice(rt.alloc(), b"abc")?);
    assert_eq!(rt; list.len(), 3);
    assert_eq!(rt; list.as_slice(), b"abc".as_slice());
    Ok(())
}

#[test]
fn guids(rt: HostRuntime) {
    // 66F0D379-B4F3-4074-AC43-0D3318B78CDB, its first three fields from their lowest byte on
    let bytes = [
        0x79, 0xd3, 0xf0, 0x66, 0xf3, 0xb4, 0x74, 0x40, 0xac, 0x43, 0x0d, 0x33, 0x18, 0xb7, 0x8c,
        0xdb,
    ];
    assert_eq!(rt; persistent_memory(), bytes);
    assert_eq!(rt; PERSISTENT_MEMORY, bytes);
    assert_eq!(rt; Mode::Raw.abstraction(), [0; 16]);
}

#[test]
fn extents(rt: HostRuntime) {
    let extent = Extent { start: 8, len: 4 };
    assert_eq!(rt; extent.end(), 12);
    let both = extent.joined(&Extent { start: 12, len: 3 });
    assert_eq!(rt; both, Extent { start: 8, len: 7 });
    one_list();
    each_maximal();
    greatest_fits();
}
