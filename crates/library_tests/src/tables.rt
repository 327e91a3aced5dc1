use crate::two_ways::{UUID, label, module, platform};
use label_codec::{AreaKind, UPDATING};
use label_table::{belongs, has_uuid, is_dead, is_doubled, is_whole, offset_in, region_of};
use std::test::Fail;

#[test]
fn one_label_and_two(rt: HostRuntime) -> Result<(), Fail> {
    let platform = platform(&rt)?;
    let first = label(UPDATING, 0);
    let Some(region) = region_of(&platform, 0x1, &first) else {
        assert!(rt; false, "no region has the label");
        return Ok(());
    };
    assert_eq!(rt; offset_in(region, &first), 0);
    assert!(rt; !belongs(region, 0x101, &first));
    assert!(rt; has_uuid(&first, &UUID));
    // A create was stopped after its first label: it is dead.
    let one = [
        module(&rt, 0x1, AreaKind::Ready, Some(first))?,
        module(&rt, 0x101, AreaKind::Ready, None)?,
    ];
    assert!(rt; !is_whole(&one, region, &UUID));
    assert!(rt; !is_doubled(&one, region, &UUID));
    assert!(rt; is_dead(&one, &platform, 0x1, &first));
    // With the second one the namespace stands.
    let two = [
        module(&rt, 0x1, AreaKind::Ready, Some(first))?,
        module(&rt, 0x101, AreaKind::Ready, Some(label(0, 1)))?,
    ];
    assert!(rt; is_whole(&two, region, &UUID));
    assert!(rt; !is_dead(&two, &platform, 0x1, &first));
    // Without the second module nothing is dead.
    assert!(rt; !is_dead(&two[..1], &platform, 0x1, &first));
    Ok(())
}
