use label_codec::Label;
use std::test::Fail;
use uuid_index::{Entry, Found, Index};

const FIRST: [u8; 16] = [0x0f; 16];

const SECOND: [u8; 16] = [0x9a; 16];

const THIRD: [u8; 16] = [0xff; 16];

fn entry(uuid: [u8; 16], position: usize, slot: u32) -> Entry {
    Entry {
        uuid,
        position,
        slot,
    }
}

/// A uuid of its own for each number.
fn uuid_of(number: u32) -> [u8; 16] {
    let mut uuid = [0x55; 16];
    uuid[6..10].copy_from_slice(&number.wrapping_mul(0x9e37_79b1).to_le_bytes());
    uuid
}

#[test]
fn found(rt: HostRuntime) -> Result<(), Fail> {
    let entries = [
        entry(SECOND, 1, 2),
        entry(FIRST, 0, 7),
        entry(SECOND, 0, 3),
        entry(FIRST, 0, 1),
    ];
    let mut index = Index::of(entries.to_vec(rt.alloc())?);
    for (uuid, position, want) in [
        (FIRST, 0, Found::Repeated),
        (FIRST, 1, Found::Nowhere),
        (SECOND, 0, Found::Once { slot: 3 }),
        (SECOND, 1, Found::Once { slot: 2 }),
        (SECOND, 2, Found::Nowhere),
        (THIRD, 0, Found::Nowhere),
    ] {
        assert_eq!(rt; index.find(&uuid, position), want, "{uuid:?} at {position}");
    }
    index.reserve(2)?;
    assert!(rt; index.room() >= 2);
    assert!(rt; index.remove(&entry(FIRST, 0, 1)));
    assert!(rt; !index.remove(&entry(FIRST, 1, 7)));
    assert!(rt; index.room() >= 3);
    index.insert(entry(THIRD, 1, 0));
    index.insert(entry(SECOND, 1, 0));
    let want = [
        entry(FIRST, 0, 7),
        entry(SECOND, 0, 3),
        entry(SECOND, 1, 0),
        entry(SECOND, 1, 2),
        entry(THIRD, 1, 0),
    ];
    assert_eq!(rt; index.entries(), want.as_slice());
    Ok(())
}

#[test]
fn entries_of_labels(rt: HostRuntime) {
    let label = Label {
        uuid: FIRST,
        name: [0; 64],
        flags: 8,
        nlabel: 2,
        position: 1,
        cookie: 0,
        lba_size: 512,
        dpa: 0,
        raw_size: 4_194_304,
        slot: 4,
        alignment: 0,
        type_guid: [0; 16],
        abstraction: [0; 16],
    };
    assert_eq!(rt; Entry::of(&label, 3, 9), entry(FIRST, 3, 9));
}

#[test]
fn as_many_as_areas_hold(rt: HostRuntime) -> Result<(), Fail> {
    let mut entries = Vec::new(rt.alloc());
    for number in 0u32..65_440 {
        entries.push(entry(uuid_of(number), 0, number))?;
    }
    let index = Index::of(entries);
    for turn in 0u32..16 {
        for number in 0u32..65_440 {
            let want = Found::Once { slot: number };
            assert_eq!(rt;
                index.find(&uuid_of(number), 0),
                want,
                "{number} in turn {turn}"
            );
        }
    }
    Ok(())
}
