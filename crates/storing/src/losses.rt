// Power fails on each call of the device in turn, while a client reads and commits twice: every answer before that is as it
// should be, the call that meets it tells so, and which commit is found when power is back follows from that.
use crate::asking::{Read, check_shut};
use crate::devices::Limited;
use crate::makers::LONG;
use crate::returns::{OFF, check_return};
use cache::Cache;
use device::{PAGE_SIZE, PowerCycle};
use disks::{WriteBehind, WriteThrough};
use faults::StoreFault;
use std::alloc::{AllocError, Global};
use std::process::Abort;
use std::test::Fail;
use store::{Answer, Call, Store};

// A call, and what it answers while power stays.
type Row = (Call, Result<Answer, StoreFault>);

fn transactions() -> [Row; 10] {
    [
        (Call::Open, Ok(Answer::Number(0))),
        (Call::Begin, Ok(Answer::Done)),
        (Call::Commit, Ok(Answer::Number(1))),
        (Call::Begin, Ok(Answer::Done)),
        (Call::Abort, Ok(Answer::Done)),
        (Call::Begin, Ok(Answer::Done)),
        (Call::Open, Err(StoreFault::InTransaction)),
        (Call::Commit, Ok(Answer::Number(2))),
        (Call::Open, Ok(Answer::Number(2))),
        (Call::Abort, Err(StoreFault::NoTransaction)),
    ]
}

// Reads of an empty map.
fn reads(heap: Global) -> Result<[Row; 6], AllocError> {
    let [none, whole, long] = [&LONG[..0], &LONG[..64], &LONG[..65]];
    Ok([
        (Read::Get.call(heap, none)?, Err(StoreFault::KeyLength)),
        (Read::Get.call(heap, whole)?, Err(StoreFault::Absent)),
        (Read::Get.call(heap, long)?, Err(StoreFault::KeyLength)),
        (Read::After.call(heap, none)?, Err(StoreFault::Absent)),
        (Read::After.call(heap, whole)?, Err(StoreFault::Absent)),
        (Read::After.call(heap, long)?, Err(StoreFault::KeyLength)),
    ])
}

// The calls of a client after a format: it reads after each other call, in a transaction or not.
fn script(heap: Global) -> Result<Vec<Row>, Fail> {
    let mut rows = Vec::new(heap);
    for row in transactions() {
        rows.push(row)?;
        for read in reads(heap)? {
            rows.push(read)?;
        }
    }
    Ok(rows)
}

// How many calls of the device are made for a call that answers this.
fn device_calls<D: Limited>(call: &Call, answer: Result<Answer, StoreFault>) -> u64 {
    match (call, answer) {
        (Call::Open, Ok(_)) => D::OPENING,
        (Call::Get(_) | Call::After(_), Err(StoreFault::Absent)) => D::READING,
        // a sync, the meta page, a sync
        (Call::Commit, Ok(_)) => 3,
        _ => 0,
    }
}

// How a client's calls are made.
#[derive(Clone, Copy)]
enum Way {
    // each by `act`
    Act,
    // get and after with a buffer of the caller's
    Buffer,
}

impl Way {
    fn ask<D: PowerCycle>(
        self,
        rt: &impl Abort,
        store: &mut Store<D>,
        call: &Call,
    ) -> Result<Answer, StoreFault> {
        let (answer, page) = match (self, call) {
            (Way::Buffer, Call::Get(key)) => Read::Get.ask(store, key),
            (Way::Buffer, Call::After(key)) => Read::After.ask(store, key),
            _ => return store.act(call),
        };
        // nothing is found in an empty map, so the buffer is clear
        assert_eq!(rt; page, [0; PAGE_SIZE]);
        answer.map(Answer::Cell)
    }
}

// Makes the calls while so many calls of the device are left, and answers the number of the commit that stands then.
fn work<D: Limited>(
    rt: &(impl Abort + AllocGlobal),
    store: &mut Store<D>,
    way: Way,
    mut left: u64,
) -> Result<u64, Fail> {
    let mut number = 0u64;
    for (call, expected) in script(rt.alloc())? {
        let answer = way.ask(rt, store, &call);
        let calls = device_calls::<D>(&call, expected);
        if left < calls {
            assert_eq!(rt; answer, Err(OFF), "{left} calls left");
            check_shut(rt, store);
            // a meta page that is durable at once stands where only the sync after it is refused
            let stands = D::AT_ONCE && matches!(call, Call::Commit) && left + 1 == calls;
            return Ok(number.saturating_add(u64::from(stands)));
        }
        assert_eq!(rt; answer, expected, "{left} calls left");
        left -= calls;
        if let Ok(Answer::Number(answered)) = answer {
            number = answered;
        }
    }
    Ok(number)
}

fn formatted<D: Limited>(heap: Global, limit: u64) -> Result<Store<D>, Fail> {
    let mut store = Store::new(D::blank(heap, limit)?);
    store.format()?;
    Ok(store)
}

fn check_cut<D: Limited>(
    rt: &(impl Abort + AllocGlobal),
    way: Way,
    left: u64,
    limit: u64,
) -> Result<(), Fail> {
    let mut store = formatted::<D>(rt.alloc(), limit)?;
    let number = work(rt, &mut store, way, left)?;
    check_return(rt, store, limit, &[Ok(number)])
}

// With the first limit the call after the format is refused, with the last one none of the script's.
fn cut_at_each<D: Limited>(rt: &(impl Abort + AllocGlobal)) -> Result<(), Fail> {
    let before = formatted::<D>(rt.alloc(), 0)?.into_device().calls();
    let mut store = formatted::<D>(rt.alloc(), 0)?;
    assert_eq!(rt; work(rt, &mut store, Way::Act, u64::MAX)?, 2);
    let made = store.into_device().calls().saturating_sub(before);
    for (left, limit) in (0..=made).zip(before.saturating_add(1)..) {
        check_cut::<D>(rt, Way::Act, left, limit)?;
        check_cut::<D>(rt, Way::Buffer, left, limit)?;
    }
    Ok(())
}

#[test]
fn each_call_on_a_write_through_disk(rt: HostRuntime) -> Result<(), Fail> {
    cut_at_each::<WriteThrough>(&rt)
}

#[test]
fn each_call_on_a_write_behind_disk(rt: HostRuntime) -> Result<(), Fail> {
    cut_at_each::<WriteBehind>(&rt)
}

#[test]
fn each_call_through_a_cache_over_write_through(rt: HostRuntime) -> Result<(), Fail> {
    cut_at_each::<Cache<WriteThrough>>(&rt)
}

#[test]
fn each_call_through_a_cache_over_write_behind(rt: HostRuntime) -> Result<(), Fail> {
    cut_at_each::<Cache<WriteBehind>>(&rt)
}
