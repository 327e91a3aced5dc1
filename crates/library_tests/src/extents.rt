ghost use Rattle.std.specs.Prelude.{◌≡◌, ◌≤◌, ◌<◌, IfOk};
ghost use Rattle.view_types.specs.Intervals.{NoneFree, is_free};

use extent_alloc::{Extents, Steps};
use std::alloc::{AllocError, Global};
use std::marker::Brand;
use std::process::Abort;
use std::sync::ledger::{Blank, Ledger};
use std::test::Fail;
use view_types::Extent;

/// The free extents are these, as pairs of start and length.
fn is_listed(alloc: Global, free: &Extents, want: &[(u64, u64)]) -> Result<bool, AllocError> {
    let listed: Vec<(u64, u64)> = free
        .iter()
        .map(|extent| (extent.start, extent.len))
        .collect(alloc)?;
    Ok(listed.as_slice() == want)
}

/// A whole of 100 without 10 to 19 and 30 to 39.
fn with_gaps<L: Ledger>(alloc: Global, steps: &mut Steps<L>) -> Result<Extents, AllocError>
    ensures whole { IfOk result (λ free. free.whole ≡ 100) }
    ensures spare { IfOk result (λ free. 2 ≤ free.spare) }
    ensures first { IfOk result (λ free. NoneFree (is_free free.extents) 10 10) }
    ensures second { IfOk result (λ free. NoneFree (is_free free.extents) 30 10) }
{
    let mut free = Extents::whole(alloc, 100)?;
    free.reserve(4)?;
    free.carve(10, 10, steps);
    free.carve(30, 10, steps);
    Ok(free)
}

fn gaps_close<L: Ledger>(rt: &impl Abort, alloc: Global, blank: Blank) -> Result<(), Fail>
    requires name { blank.name ≡ L.name }
    requires parts { blank.parts ≡ L.parts }
    requires some { 0 < blank.parts }
{
    let mut steps = Steps::<L>::new(blank);
    let mut free = with_gaps(alloc, &mut steps)?;
    assert!(rt; is_listed(alloc, &free, &[(0, 10), (20, 10), (40, 60)])?);
    free.release(10, 10, &mut steps);
    assert!(rt; is_listed(alloc, &free, &[(0, 30), (40, 60)])?);
    free.release(30, 10, &mut steps);
    assert!(rt; is_listed(alloc, &free, &[(0, 100)])?);
    Ok(())
}

fn gaps_are_left_out<L: Ledger>(rt: &impl Abort, alloc: Global, blank: Blank) -> Result<(), Fail>
    requires name { blank.name ≡ L.name }
    requires parts { blank.parts ≡ L.parts }
    requires some { 0 < blank.parts }
{
    let mut steps = Steps::<L>::new(blank);
    let free = with_gaps(alloc, &mut steps)?.take_copy(alloc)?;
    assert_eq!(rt; free.first_fit(7, 8), Some(0));
    assert_eq!(rt; free.first_fit(11, 8), Some(40));
    assert_eq!(rt; free.first_fit(60, 8), Some(40));
    assert_eq!(rt; free.first_fit(61, 8), None);
    assert_eq!(rt; free.largest(8), 56);
    assert_eq!(rt; free.count(), 3);
    assert_eq!(rt; free.get(1), Some(Extent { start: 20, len: 10 }));
    assert_eq!(rt; free.get(3), None);
    Ok(())
}

#[test]
fn gaps(rt: HostRuntime) -> Result<(), Fail> {
    gaps_close::<Brand>(&rt, rt.alloc(), Blank::new(1))?;
    gaps_are_left_out::<Brand>(&rt, rt.alloc(), Blank::new(1))
}

fn near_the_end<L: Ledger>(rt: &impl Abort, alloc: Global, blank: Blank) -> Result<(), Fail>
    requires name { blank.name ≡ L.name }
    requires parts { blank.parts ≡ L.parts }
    requires some { 0 < blank.parts }
{
    let mut steps = Steps::<L>::new(blank);
    let mut free = Extents::whole(alloc, u64::MAX)?;
    assert_eq!(rt; free.largest(1 << 63), 1 << 63);
    assert_eq!(rt; free.largest(1 << 62), 3 << 62);
    free.reserve(1)?;
    let half = (1 << 63) + 1;
    let fit = free.first_fit(half, 1);
    assert_eq!(rt; fit, Some(0));
    if let Some(start) = fit {
        free.carve(start, half, &mut steps);
    }
    // the next multiple would be 2^64
    assert_eq!(rt; free.first_fit(1, 1 << 63), None);
    assert_eq!(rt; free.largest(1 << 63), 0);
    assert_eq!(rt; free.first_fit(1, 1 << 62), Some(3 << 62));
    assert_eq!(rt; free.spare(), 1);
    Ok(())
}

#[test]
fn wide_wholes(rt: HostRuntime) -> Result<(), Fail> {
    near_the_end::<Brand>(&rt, rt.alloc(), Blank::new(1))
}

/// The offsets of a whole outside of some ranges are these extents, all as pairs of start and length.
fn leave(
    rt: &impl Abort,
    alloc: Global,
    whole: u64,
    ranges: &[(u64, u64)],
    want: &[(u64, u64)],
) -> Result<(), Fail> {
    let ranges: Vec<Extent> = ranges
        .iter()
        .map(|&(start, len)| Extent { start, len })
        .collect(alloc)?;
    let free = Extents::outside(alloc, whole, ranges)?;
    assert!(rt; is_listed(alloc, &free, want)?);
    Ok(())
}

#[test]
fn outside_of_ranges(rt: HostRuntime) -> Result<(), Fail> {
    let alloc = rt.alloc();
    leave(&rt, alloc, 100, &[], &[(0, 100)])?;
    leave(&rt, alloc, 100, &[(90, 20), (30, 0)], &[(0, 90)])?;
    leave(&rt, alloc, 100, &[(40, 20), (10, 40)], &[(0, 10), (60, 40)])?;
    Ok(())
}
