// What each call refuses for the state that the store is in.
use crate::asking::{Read, check_shut, refused};
use disks::{WriteBehind, WriteThrough};
use faults::StoreFault;
use std::alloc::Global;
use std::process::Abort;
use std::test::Fail;
use store::{Answer, Call, Store};

fn opened(heap: Global) -> Result<Store<WriteBehind>, Fail> {
    let mut store = Store::new(WriteBehind::new(heap, 16, 0)?);
    store.format()?;
    store.open()?;
    Ok(store)
}

// An empty map has no key, and none after one.
fn check_empty(rt: &impl Abort, store: &mut Store<WriteBehind>) {
    for read in [Read::Get, Read::After] {
        assert_eq!(rt; read.ask(store, b"key"), refused(StoreFault::Absent));
    }
}

// It is shut before it is opened, and after a format.
#[test]
fn a_shut_store_only_opens(rt: HostRuntime) -> Result<(), Fail> {
    let mut store = Store::new(WriteBehind::new(rt.alloc(), 16, 0)?);
    check_shut(&rt, &mut store);
    assert_eq!(rt; store.format(), Ok(()));
    check_shut(&rt, &mut store);
    assert_eq!(rt; store.open(), Ok(0));
    check_empty(&rt, &mut store);
    assert_eq!(rt; store.format(), Ok(()));
    check_shut(&rt, &mut store);
    Ok(())
}

// In a transaction or not: what was not committed is gone.
#[test]
fn a_power_return_shuts_the_store(rt: HostRuntime) -> Result<(), Fail> {
    let mut store = opened(rt.alloc())?;
    for number in [1, 2] {
        assert_eq!(rt; store.act(&Call::Begin), Ok(Answer::Done));
        assert_eq!(rt; store.act(&Call::Commit), Ok(Answer::Number(number)));
        assert_eq!(rt; store.act(&Call::PowerReturn), Ok(Answer::Done));
        check_shut(&rt, &mut store);
        assert_eq!(rt; store.open(), Ok(number));
        assert_eq!(rt; store.act(&Call::Begin), Ok(Answer::Done));
        assert_eq!(rt; store.act(&Call::PowerReturn), Ok(Answer::Done));
        check_shut(&rt, &mut store);
        assert_eq!(rt; store.open(), Ok(number));
    }
    Ok(())
}

#[test]
fn an_idle_store_ends_no_transaction(rt: HostRuntime) -> Result<(), Fail> {
    let mut store = opened(rt.alloc())?;
    for call in [Call::Commit, Call::Abort] {
        assert_eq!(rt; store.act(&call), Err(StoreFault::NoTransaction));
        check_empty(&rt, &mut store);
    }
    assert_eq!(rt; store.act(&Call::Begin), Ok(Answer::Done));
    Ok(())
}

// What is refused in a transaction leaves it as it is.
#[test]
fn a_transaction_is_ended_before_another_begins(rt: HostRuntime) -> Result<(), Fail> {
    for (call, answer) in [
        (Call::Abort, Ok(Answer::Done)),
        (Call::Commit, Ok(Answer::Number(1))),
    ] {
        let mut store = opened(rt.alloc())?;
        assert_eq!(rt; store.act(&Call::Begin), Ok(Answer::Done));
        assert_eq!(rt; store.act(&Call::Begin), Err(StoreFault::InTransaction));
        assert_eq!(rt; store.open(), Err(StoreFault::InTransaction));
        assert_eq!(rt; store.format(), Err(StoreFault::InTransaction));
        check_empty(&rt, &mut store);
        assert_eq!(rt; store.act(&call), answer);
        check_empty(&rt, &mut store);
        assert_eq!(rt; store.act(&call), Err(StoreFault::NoTransaction));
    }
    Ok(())
}

// The number of a commit is not used up by a transaction that is aborted.
#[test]
fn an_abort_changes_nothing(rt: HostRuntime) -> Result<(), Fail> {
    let mut store = opened(rt.alloc())?;
    assert_eq!(rt; store.act(&Call::Begin), Ok(Answer::Done));
    assert_eq!(rt; store.act(&Call::Abort), Ok(Answer::Done));
    assert_eq!(rt; store.open(), Ok(0));
    assert_eq!(rt; store.act(&Call::Begin), Ok(Answer::Done));
    assert_eq!(rt; store.act(&Call::Commit), Ok(Answer::Number(1)));
    Ok(())
}

// A store gives its device back in a transaction, too: what was committed is durable on it.
#[test]
fn a_device_is_given_back(rt: HostRuntime) -> Result<(), Fail> {
    let mut store = opened(rt.alloc())?;
    assert_eq!(rt; store.act(&Call::Begin), Ok(Answer::Done));
    assert_eq!(rt; store.act(&Call::Commit), Ok(Answer::Number(1)));
    assert_eq!(rt; store.act(&Call::Begin), Ok(Answer::Done));
    let mut store = Store::new(store.into_device().with_limit(0));
    check_shut(&rt, &mut store);
    assert_eq!(rt; store.open(), Ok(1));
    Ok(())
}

// A ticket of one store ends a transaction of another, too.
#[test]
fn tickets_are_alike(rt: HostRuntime) -> Result<(), Fail> {
    let mut first = Store::new(WriteBehind::new(rt.alloc(), 16, 0)?);
    let mut second = Store::new(WriteThrough::new(rt.alloc(), 17, 0)?);
    first.format()?;
    second.format()?;
    first.open()?;
    second.open()?;
    let one = first.begin()?;
    let other = match second.begin() {
        Ok(ticket) => ticket,
        Err(fault) => {
            first.abort(one)?;
            return Err(fault.into());
        }
    };
    let committed = second.commit(one);
    let aborted = first.abort(other);
    assert_eq!(rt; committed, Ok(1));
    assert_eq!(rt; aborted, Ok(()));
    assert_eq!(rt; first.open(), Ok(0));
    assert_eq!(rt; second.open(), Ok(1));
    Ok(())
}

// A ticket is taken back, whatever is answered.
#[test]
fn a_ticket_outlives_its_transaction(rt: HostRuntime) -> Result<(), Fail> {
    let mut store = opened(rt.alloc())?;
    let ticket = store.begin()?;
    store.power_return();
    let committed = store.commit(ticket);
    assert_eq!(rt; committed, Err(StoreFault::Shut));
    store.open()?;
    let ticket = store.begin()?;
    let ended = store.act(&Call::Abort);
    let aborted = store.abort(ticket);
    assert_eq!(rt; ended, Ok(Answer::Done));
    assert_eq!(rt; aborted, Err(StoreFault::NoTransaction));
    Ok(())
}
