// Openings that are refused for what the device holds.
use crate::asking::check_shut;
use crate::makers::{empty, with};
use device::Device;
use disks::WriteThrough;
use faults::StoreFault;
use page::{Cause, Damage, LeafPage, PageFault};
use std::process::Abort;
use std::test::Fail;
use store::Store;

// An opening is refused for this, and leaves the store shut. A format makes the device one that opens.
fn check_refused(rt: &impl Abort, disk: WriteThrough, fault: StoreFault, number: u8) {
    let mut store = Store::new(disk);
    assert_eq!(rt; store.open(), Err(fault));
    assert_eq!(rt; fault.number(), number);
    check_shut(rt, &mut store);
    assert_eq!(rt; store.format(), Ok(()));
    assert_eq!(rt; store.open(), Ok(0));
}

#[test]
fn a_blank_device_has_no_meta(rt: HostRuntime) -> Result<(), Fail> {
    let disk = WriteThrough::new(rt.alloc(), 16, 0)?;
    check_refused(&rt, disk, StoreFault::NoMeta, 8);
    Ok(())
}

// Bytes that are no page, a meta page, and a leaf with more pairs than the meta page says.
#[test]
fn a_leaf_that_was_overwritten_is_damaged(rt: HostRuntime) -> Result<(), Fail> {
    let leaf = with(&LeafPage::empty(), b"key", b"value")?;
    for (page, cause) in [
        ([7; 512], Cause::Checksum),
        (empty(0).encode(), Cause::Kind),
        (*leaf.bytes(), Cause::PairCount),
    ] {
        let mut store = Store::new(WriteThrough::new(rt.alloc(), 16, 0)?);
        store.format()?;
        assert_eq!(rt; store.open(), Ok(0));
        let mut disk = store.into_device();
        disk.write(2, &page)?;
        let damage = Damage { page: 2, cause };
        check_refused(&rt, disk, StoreFault::Page(PageFault::Damaged(damage)), 9);
    }
    Ok(())
}
