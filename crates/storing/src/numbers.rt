// The largest number of a commit.
use crate::makers::empty;
use device::Device;
use disks::WriteThrough;
use faults::StoreFault;
use page::LeafPage;
use std::alloc::Global;
use std::test::Fail;
use store::{Answer, Call, Store};

// A store over a disk with the meta page of this commit, and an empty leaf.
fn at_commit(heap: Global, commit: u64) -> Result<Store<WriteThrough>, Fail> {
    let mut disk = WriteThrough::new(heap, 16, 0)?;
    disk.write(u32::from(commit % 2 == 1), &empty(commit).encode())?;
    disk.write(2, LeafPage::empty().bytes())?;
    Ok(Store::new(disk))
}

#[test]
fn the_largest_number_is_the_last(rt: HostRuntime) -> Result<(), Fail> {
    let mut store = at_commit(rt.alloc(), u64::MAX)?;
    assert_eq!(rt; store.open(), Ok(u64::MAX));
    assert_eq!(rt; store.act(&Call::Begin), Err(StoreFault::LastCommit));
    assert_eq!(rt; store.act(&Call::Commit), Err(StoreFault::NoTransaction));
    assert_eq!(rt; store.open(), Ok(u64::MAX));
    Ok(())
}

#[test]
fn the_largest_number_is_committed(rt: HostRuntime) -> Result<(), Fail> {
    let mut store = at_commit(rt.alloc(), u64::MAX - 1)?;
    assert_eq!(rt; store.open(), Ok(u64::MAX - 1));
    assert_eq!(rt; store.act(&Call::Begin), Ok(Answer::Done));
    assert_eq!(rt; store.act(&Call::Commit), Ok(Answer::Number(u64::MAX)));
    assert_eq!(rt; store.act(&Call::Begin), Err(StoreFault::LastCommit));
    assert_eq!(rt; store.open(), Ok(u64::MAX));
    Ok(())
}
