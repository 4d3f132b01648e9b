// A cache over a device, beside the device alone: what a client sees of either has to be the same.
use crate::limits::cut_at_each;
use cache::Cache;
use device::{Device, DeviceFault, Page, PowerCycle, Reader};
use disks::{WriteBehind, WriteThrough};
use std::process::Abort;
use std::test::Fail;

const PAGES: u32 = 11;

const ROUNDS: u8 = 3;

// The byte that fills a page, if one byte does.
fn filled_with(page: &Page) -> Option<u8> {
    page.iter().all(|b| *b == page[0]).then_some(page[0])
}

// Writes each page, and syncs. In each page stands the number of the round.
fn round<D: Device>(device: &mut D, number: u8) -> Result<(), DeviceFault> {
    let mut buffer = [0; 512];
    for page in 0..PAGES {
        device.write(page, &[number; 512])?;
        device.read(page / 2, &mut buffer)?;
    }
    device.sync()
}

// The last round that was acknowledged. Power may fail in the next.
fn rounds<D: Device>(device: &mut D) -> u8 {
    (1..=ROUNDS)
        .take_while(|number| round(device, *number).is_ok())
        .last()
        .unwrap_or(0)
}

// After a power return each page is whole, from the last acknowledged round or the one after. Power returns
// before each read, since it fails again at the same call.
fn check_after<D: PowerCycle>(rt: &impl Abort, device: &mut D, done: u8) -> Result<(), Fail> {
    let mut buffer = [9; 512];
    for page in 0..PAGES {
        device.power_return();
        device.read(page, &mut buffer)?;
        let number = filled_with(&buffer).ok_or("a torn page")?;
        assert!(rt; number == done || number == done.saturating_add(1));
    }
    Ok(())
}

// Cut at the call number `limit`. Limit 1 refuses every call.
fn cut<D: PowerCycle>(rt: &impl Abort, device: &mut D) -> Result<u8, Fail> {
    let done = rounds(device);
    check_after(rt, device, done)?;
    Ok(done)
}

// Past the last call that the rounds make.
const PAST: u64 = 80;

#[test]
fn cached_write_behind_is_cut_at_each_call(rt: HostRuntime) -> Result<(), Fail> {
    cut_at_each(
        3..PAST,
        |limit| Ok(Cache::new(WriteBehind::new(rt.alloc(), PAGES, limit)?)),
        |device, _| cut(&rt, device).map(|_| ()),
    )
}

#[test]
fn cached_write_through_is_cut_at_each_call(rt: HostRuntime) -> Result<(), Fail> {
    cut_at_each(
        3..PAST,
        |limit| Ok(Cache::new(WriteThrough::new(rt.alloc(), PAGES, limit)?)),
        |device, _| cut(&rt, device).map(|_| ()),
    )
}

#[test]
fn bare_devices_are_cut_at_each_call(rt: HostRuntime) -> Result<(), Fail> {
    cut_at_each(
        2..PAST,
        |limit| WriteBehind::new(rt.alloc(), PAGES, limit),
        |device, _| cut(&rt, device).map(|_| ()),
    )?;
    cut_at_each(
        2..PAST,
        |limit| WriteThrough::new(rt.alloc(), PAGES, limit),
        |device, _| cut(&rt, device).map(|_| ()),
    )
}

#[test]
fn without_a_cut_all_rounds_stand(rt: HostRuntime) -> Result<(), Fail> {
    let mut cached = Cache::new(WriteBehind::new(rt.alloc(), PAGES, 0)?);
    assert_eq!(rt; cut(&rt, &mut cached)?, ROUNDS);
    let mut bare = WriteBehind::new(rt.alloc(), PAGES, 0)?;
    assert_eq!(rt; cut(&rt, &mut bare)?, ROUNDS);
    Ok(())
}

#[test]
fn reads_of_one_page_call_once(rt: HostRuntime) -> Result<(), Fail> {
    let mut cache = Cache::new(WriteBehind::new(rt.alloc(), PAGES, 0)?);
    let mut buffer = [9; 512];
    assert_eq!(rt; cache.below().calls(), 1);
    for _ in 0..100u8 {
        cache.read(3, &mut buffer)?;
    }
    assert_eq!(rt; cache.below().calls(), 2);
    cache.write(4, &[7; 512])?;
    cache.read(4, &mut buffer)?;
    assert_eq!(rt; buffer, [7; 512]);
    assert_eq!(rt; cache.below().calls(), 2);
    assert!(rt; cache.is_held(3));
    cache.power_return();
    assert!(rt; !cache.is_held(3));
    cache.read(4, &mut buffer)?;
    assert_eq!(rt; buffer, [0; 512]);
    Ok(())
}

#[test]
fn cache_over_a_device_that_is_off(rt: HostRuntime) -> Result<(), Fail> {
    let mut cache = Cache::new(WriteBehind::new(rt.alloc(), PAGES, 1)?);
    let mut buffer = [9; 512];
    assert_eq!(rt; cache.read(PAGES, &mut buffer), Err(DeviceFault::Outside));
    assert_eq!(rt; buffer, [0; 512]);
    buffer = [9; 512];
    assert_eq!(rt; cache.read(0, &mut buffer), Err(DeviceFault::Off));
    assert_eq!(rt; buffer, [0; 512]);
    assert_eq!(rt; cache.write(0, &[1; 512]), Err(DeviceFault::Off));
    assert_eq!(rt; cache.sync(), Err(DeviceFault::Off));
    Ok(())
}
