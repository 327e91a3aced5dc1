use crate::two_ways::{UUID, label, module, platform, region};
use label_codec::{AreaKind, LOCAL, READ_ONLY, UPDATING};
use std::test::Fail;
use table_steps::{
    bad_size, held_count, held_fixed, initialise, is_held, no_slots, not_held, region_lacks_area,
    release_refusal, spare, uuid_in_use,
};
use view_types::{AreaState, Refusal, Reply, Status};

const OTHER: [u8; 16] = [0x10; 16];

#[test]
fn initialised_once(rt: HostRuntime) -> Result<(), Fail> {
    let platform = platform(&rt)?;
    let modules = [
        module(&rt, 0x1, AreaKind::Uninit, None)?,
        module(&rt, 0x101, AreaKind::Foreign, None)?,
    ];
    let new = matches!(
        initialise(&platform, &modules, 0x1, 2),
        Reply::Initialised {
            dimm: 0x1,
            slots: 2
        }
    );
    assert!(rt; new);
    let foreign = matches!(
        initialise(&platform, &modules, 0x101, 2),
        Reply::Refused(Refusal::NotReady {
            status: Status::Area {
                dimm: 0x101,
                state: AreaState::Foreign
            }
        })
    );
    assert!(rt; foreign);
    let unknown = matches!(
        initialise(&platform, &modules, 0x2, 2),
        Reply::Refused(Refusal::UnknownDimm { dimm: 0x2 })
    );
    assert!(rt; unknown);
    let ready = [module(&rt, 0x1, AreaKind::Ready, None)?];
    let again = matches!(
        initialise(&platform, &ready, 0x1, 2),
        Reply::Refused(Refusal::AlreadyReady { dimm: 0x1 })
    );
    assert!(rt; again);
    Ok(())
}

#[test]
fn refusals_of_a_create(rt: HostRuntime) -> Result<(), Fail> {
    let platform = platform(&rt)?;
    let region = region(&rt)?;
    assert_eq!(rt;
        bad_size(3_145_728, &region),
        Some(Refusal::BadSize { unit: 4_194_304 })
    );
    assert_eq!(rt;
        bad_size(0, &region),
        Some(Refusal::BadSize { unit: 4_194_304 })
    );
    assert_eq!(rt; bad_size(4_194_304, &region), None);
    // A namespace takes one of two slots of each module.
    let modules = [
        module(&rt, 0x1, AreaKind::Ready, Some(label(0, 0)))?,
        module(&rt, 0x101, AreaKind::Ready, Some(label(0, 1)))?,
    ];
    assert_eq!(rt; spare(&platform, &modules, 0x101), 1);
    assert_eq!(rt; no_slots(&platform, &modules, 1, &region), None);
    assert_eq!(rt;
        no_slots(&platform, &modules, 2, &region),
        Some(Refusal::NoSlots {
            dimm: 0x1,
            spare: 1
        })
    );
    assert_eq!(rt;
        uuid_in_use(&platform, &modules, &UUID),
        Some(Refusal::UuidInUse { dimm: 0x1 })
    );
    assert_eq!(rt; uuid_in_use(&platform, &modules, &OTHER), None);
    // What a stopped create left in one module is dead, and in no command's way.
    let left = [
        module(&rt, 0x1, AreaKind::Ready, Some(label(UPDATING, 0)))?,
        module(&rt, 0x101, AreaKind::Ready, None)?,
    ];
    assert_eq!(rt; no_slots(&platform, &left, 2, &region), None);
    assert_eq!(rt; uuid_in_use(&platform, &left, &UUID), None);
    Ok(())
}

/// The label of a namespace that the other module has lost is held, and is released once.
#[test]
fn refusals_of_a_release(rt: HostRuntime) -> Result<(), Fail> {
    let platform = platform(&rt)?;
    let lost = [
        module(&rt, 0x1, AreaKind::Ready, Some(label(0, 0)))?,
        module(&rt, 0x101, AreaKind::Ready, None)?,
    ];
    assert_eq!(rt; release_refusal(&platform, &lost, 0x1, &UUID), None);
    assert_eq!(rt; held_count(&platform, &lost, 0x1, &UUID), 1);
    assert_eq!(rt; spare(&platform, &lost, 0x1), 1);
    assert_eq!(rt;
        release_refusal(&platform, &lost, 0x1, &OTHER),
        Some(Refusal::NotHeld)
    );
    assert_eq!(rt;
        not_held(&platform, &lost, 0x101, &UUID),
        Some(Refusal::NotHeld)
    );
    assert_eq!(rt;
        release_refusal(&platform, &lost, 0x2, &UUID),
        Some(Refusal::UnknownDimm { dimm: 0x2 })
    );
    Ok(())
}

/// A label is kept while the area of the other module is missing, whose own labels are not known.
#[test]
fn labels_beside_a_missing_area(rt: HostRuntime) -> Result<(), Fail> {
    let platform = platform(&rt)?;
    let missing = [
        module(&rt, 0x1, AreaKind::Ready, Some(label(UPDATING, 0)))?,
        module(&rt, 0x101, AreaKind::Missing, None)?,
    ];
    let not_ready = Some(Refusal::NotReady {
        status: Status::Area {
            dimm: 0x101,
            state: AreaState::Missing,
        },
    });
    assert_eq!(rt; held_count(&platform, &missing, 0x1, &UUID), 1);
    assert_eq!(rt;
        region_lacks_area(&platform, &missing, 0x1, &UUID),
        not_ready
    );
    assert_eq!(rt; release_refusal(&platform, &missing, 0x1, &UUID), not_ready);
    assert_eq!(rt;
        release_refusal(&platform, &missing, 0x101, &UUID),
        not_ready
    );
    Ok(())
}

#[test]
fn labels_that_are_not_released(rt: HostRuntime) -> Result<(), Fail> {
    let platform = platform(&rt)?;
    let read_only = Some(Refusal::ReadOnly { uuid: UUID });
    // Those that are read-only or local are kept, and those of a namespace are not held.
    for flags in [READ_ONLY, LOCAL] {
        let kept = [
            module(&rt, 0x1, AreaKind::Ready, Some(label(flags, 0)))?,
            module(&rt, 0x101, AreaKind::Ready, None)?,
        ];
        assert_eq!(rt; held_fixed(&platform, &kept, 0x1, &UUID), read_only);
        assert_eq!(rt; release_refusal(&platform, &kept, 0x1, &UUID), read_only);
    }
    let whole = [
        module(&rt, 0x1, AreaKind::Ready, Some(label(0, 0)))?,
        module(&rt, 0x101, AreaKind::Ready, Some(label(0, 1)))?,
    ];
    assert_eq!(rt;
        release_refusal(&platform, &whole, 0x1, &UUID),
        Some(Refusal::NotHeld)
    );
    assert_eq!(rt; is_held(&platform, &whole, 0x1, &label(0, 0)), false);
    Ok(())
}
