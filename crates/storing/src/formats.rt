// Power fails on each call of a format in turn: the store is shut, and what is found when power is back follows from the order
// of the calls and from the kind of the disk.
use crate::asking::check_shut;
use crate::devices::Limited;
use crate::returns::{Found, OFF, calls_to_find, check_return};
use cache::Cache;
use disks::{WriteBehind, WriteThrough};
use faults::StoreFault;
use std::process::Abort;
use std::test::Fail;
use store::{Call, Store};

const NONE: Found = Err(StoreFault::NoMeta);

// What may be found where a call of the format is refused: on a blank device, and on one with commit 1 in page 1 and commit 2
// in page 0, at which the store is open. The calls write zeros to page 0, zeros to page 1, and the leaf to page 2; sync; write
// the meta page to page 0; and sync. In the last row none is refused.
type Findings = [(Found, &'static [Found]); 7];

// A write is durable once it is answered: commit 2 goes, then commit 1, and at last commit 0 is there.
const AT_ONCE: Findings = [
    (NONE, &[Ok(2)]),
    (NONE, &[Ok(1)]),
    (NONE, &[NONE]),
    (NONE, &[NONE]),
    (NONE, &[NONE]),
    (Ok(0), &[Ok(0)]),
    (Ok(0), &[Ok(0)]),
];

// A write is durable once the sync after it is answered: both commits go with the first one, and commit 0 is there after the
// second.
const AT_SYNC: Findings = [
    (NONE, &[Ok(2)]),
    (NONE, &[Ok(2)]),
    (NONE, &[Ok(2)]),
    (NONE, &[Ok(2)]),
    (NONE, &[NONE]),
    (NONE, &[NONE]),
    (Ok(0), &[Ok(0)]),
];

// A cache makes the first three writes when it is synced, in an order of its own. With one of them commit 1 may be left, or
// commit 2, and with two of them also none.
const IN_ANY_ORDER: Findings = [
    (NONE, &[Ok(2)]),
    (NONE, &[Ok(2), Ok(1)]),
    (NONE, &[Ok(2), Ok(1), NONE]),
    (NONE, &[NONE]),
    (NONE, &[NONE]),
    (Ok(0), &[Ok(0)]),
    (Ok(0), &[Ok(0)]),
];

// A store that is open at commit 2, over a device with this limit.
fn opened<D: Limited>(rt: &(impl Abort + AllocGlobal), limit: u64) -> Result<Store<D>, Fail> {
    let mut store = Store::new(D::blank(rt.alloc(), 0)?);
    store.format()?;
    store.open()?;
    for call in [Call::Begin, Call::Commit, Call::Begin, Call::Commit] {
        store.act(&call)?;
    }
    let mut store = Store::new(store.into_device().with_limit(rt.alloc(), limit)?);
    assert_eq!(rt; store.open(), Ok(2));
    Ok(store)
}

fn check_format<D: Limited>(
    rt: &(impl Abort + AllocGlobal),
    mut store: Store<D>,
    limit: u64,
    answer: Result<(), StoreFault>,
    candidates: &[Found],
) -> Result<(), Fail> {
    assert_eq!(rt; store.format(), answer, "limit {limit}");
    check_shut(rt, &mut store);
    check_return(rt, store, limit, candidates)
}

fn cut_at_each<D: Limited>(
    rt: &(impl Abort + AllocGlobal),
    findings: Findings,
) -> Result<(), Fail> {
    for (call, (on_blank, candidates)) in (1..).zip(findings) {
        let answer = if call <= 6 { Err(OFF) } else { Ok(()) };
        let limit = D::limit(call);
        let store = Store::new(D::blank(rt.alloc(), limit)?);
        check_format(rt, store, limit, answer, &[on_blank])?;
        let limit = D::limit(calls_to_find(Ok(2))).saturating_add(call);
        let store = opened::<D>(rt, limit)?;
        check_format(rt, store, limit, answer, candidates)?;
    }
    Ok(())
}

// A device whose power fails on its first call, also after each power return.
fn check_never_on<D: Limited>(rt: &(impl Abort + AllocGlobal)) -> Result<(), Fail> {
    let mut store = Store::new(D::blank(rt.alloc(), 1)?);
    for _ in 0..2u8 {
        assert_eq!(rt; store.format(), Err(OFF));
        check_shut(rt, &mut store);
        assert_eq!(rt; store.open(), Err(OFF));
        check_shut(rt, &mut store);
        store.power_return();
    }
    Ok(())
}

#[test]
fn each_call_on_a_write_through_disk(rt: HostRuntime) -> Result<(), Fail> {
    cut_at_each::<WriteThrough>(&rt, AT_ONCE)
}

#[test]
fn each_call_on_a_write_behind_disk(rt: HostRuntime) -> Result<(), Fail> {
    cut_at_each::<WriteBehind>(&rt, AT_SYNC)
}

#[test]
fn each_call_through_a_cache_over_write_through(rt: HostRuntime) -> Result<(), Fail> {
    cut_at_each::<Cache<WriteThrough>>(&rt, IN_ANY_ORDER)
}

#[test]
fn each_call_through_a_cache_over_write_behind(rt: HostRuntime) -> Result<(), Fail> {
    cut_at_each::<Cache<WriteBehind>>(&rt, AT_SYNC)
}

#[test]
fn a_device_that_is_never_on(rt: HostRuntime) -> Result<(), Fail> {
    check_never_on::<WriteThrough>(&rt)?;
    check_never_on::<WriteBehind>(&rt)?;
    check_never_on::<Cache<WriteThrough>>(&rt)?;
    check_never_on::<Cache<WriteBehind>>(&rt)
}
