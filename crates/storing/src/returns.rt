// What an opening finds when power is back, where power fails on each call of the opening, too.
use crate::asking::check_shut;
use crate::devices::Limited;
use device::{DeviceFault, PowerCycle};
use faults::StoreFault;
use page::PageFault;
use std::process::Abort;
use std::test::Fail;
use store::{Answer, Call, Store};

// The number of a commit, or why none is found.
pub(crate) type Found = Result<u64, StoreFault>;

pub(crate) const OFF: StoreFault = StoreFault::Page(PageFault::Device(DeviceFault::Off));

// The calls of an opening after a power return: a sync, both meta pages and, if one of them counts, its leaf.
pub(crate) fn calls_to_find(found: Found) -> u64 {
    if found.is_ok() { 4 } else { 3 }
}

// What an opening answers. If it is refused, the store is shut.
fn find<D: PowerCycle>(rt: &impl Abort, store: &mut Store<D>) -> Found {
    let found = store.open();
    if found.is_err() {
        check_shut(rt, store);
    }
    found
}

// Power returns to a device, and an opening answers this.
fn check_opening<D: Limited>(
    rt: &(impl Abort + AllocGlobal),
    device: D,
    limit: u64,
    answer: Found,
) -> Result<D, Fail> {
    let mut store = Store::new(device.with_limit(rt.alloc(), limit)?);
    assert_eq!(rt; find(rt, &mut store), answer, "limit {limit}");
    Ok(store.into_device())
}

// Each opening finds this: the first, and the one after an opening that power failed on, whichever call that was.
fn check_openings<D: Limited>(
    rt: &(impl Abort + AllocGlobal),
    device: D,
    found: Found,
) -> Result<D, Fail> {
    let mut device = check_opening(rt, device, 0, found)?;
    let calls = calls_to_find(found);
    assert_eq!(rt; device.calls(), D::limit(calls));
    for call in 1..=calls {
        device = check_opening(rt, device, D::limit(call), Err(OFF))?;
        device = check_opening(rt, device, 0, found)?;
    }
    Ok(device)
}

// The next commit has the next number, and is found.
fn check_next<D: Limited>(
    rt: &(impl Abort + AllocGlobal),
    device: D,
    number: u64,
) -> Result<(), Fail> {
    let next = number.saturating_add(1);
    let mut store = Store::new(device);
    assert_eq!(rt; store.open(), Ok(number));
    assert_eq!(rt; store.act(&Call::Begin), Ok(Answer::Done));
    assert_eq!(rt; store.act(&Call::Commit), Ok(Answer::Number(next)));
    check_openings(rt, store.into_device(), Ok(next))?;
    Ok(())
}

// The device of a store is off, or goes off with its next call. When power is back, an opening finds one of these; but with
// the same limit the device goes off again, in an opening that makes as many calls.
pub(crate) fn check_return<D: Limited>(
    rt: &(impl Abort + AllocGlobal),
    mut store: Store<D>,
    limit: u64,
    candidates: &[Found],
) -> Result<(), Fail> {
    assert_eq!(rt; find(rt, &mut store), Err(OFF), "limit {limit}");
    store.power_return();
    check_shut(rt, &mut store);
    let first = find(rt, &mut store);
    let mut store = Store::new(store.into_device().with_limit(rt.alloc(), 0)?);
    let found = find(rt, &mut store);
    assert!(rt; candidates.contains(&found), "limit {limit}: {found:?}");
    let goes_off = limit <= calls_to_find(found);
    assert_eq!(rt;
        first,
        if goes_off { Err(OFF) } else { found },
        "limit {limit}"
    );
    let device = check_openings(rt, store.into_device(), found)?;
    match found {
        Ok(number) => check_next(rt, device, number),
        Err(_) => Ok(()),
    }
}
