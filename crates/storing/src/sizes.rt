// How many pages a device of a store has.
use crate::asking::check_shut;
use disks::WriteThrough;
use faults::StoreFault;
use std::test::Fail;
use store::{Answer, Call, Store};

#[test]
fn a_store_has_16_to_1024_pages(rt: HostRuntime) -> Result<(), Fail> {
    for pages in [16, 1024] {
        let mut store = Store::new(WriteThrough::new(rt.alloc(), pages, 0)?);
        assert_eq!(rt; store.open(), Err(StoreFault::NoMeta), "{pages}");
        assert_eq!(rt; store.format(), Ok(()), "{pages}");
        assert_eq!(rt; store.open(), Ok(0), "{pages}");
        assert_eq!(rt; store.act(&Call::Begin), Ok(Answer::Done), "{pages}");
        assert_eq!(rt; store.act(&Call::Commit), Ok(Answer::Number(1)), "{pages}");
        assert_eq!(rt; store.open(), Ok(1), "{pages}");
    }
    Ok(())
}

// The number of pages is asked for first, and that is no call of the device.
#[test]
fn a_device_of_another_size_is_not_called(rt: HostRuntime) -> Result<(), Fail> {
    for pages in [0, 15, 1025] {
        let mut store = Store::new(WriteThrough::new(rt.alloc(), pages, 0)?);
        assert_eq!(rt; store.format(), Err(StoreFault::PageCount), "{pages}");
        assert_eq!(rt; store.open(), Err(StoreFault::PageCount), "{pages}");
        check_shut(&rt, &mut store);
        assert_eq!(rt; store.into_device().calls(), 0, "{pages}");
    }
    Ok(())
}
