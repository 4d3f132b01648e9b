use crate::limits::cut_at_each;
use device::{Device, DeviceFault, Page, PowerCycle, Reader};
use disks::{Image, ImageFault, WriteBehind, WriteThrough};
use std::process::Abort;
use std::test::Fail;

const OFF: Result<(), DeviceFault> = Err(DeviceFault::Off);

const OUTSIDE: Result<(), DeviceFault> = Err(DeviceFault::Outside);

// Makes one of the calls in turn: a write, a read, a sync. A match, as closures would need a table of pointers.
fn call<D: Device>(device: &mut D, turn: u64) -> Result<(), DeviceFault> {
    let mut buffer = [0; 512];
    match turn % 3 {
        0 => device.write(1, &[7; 512]),
        1 => device.read(1, &mut buffer),
        _ => device.sync(),
    }
}

// Power lasts for the calls before the limit, and for none from there on. Calls outside are refused as such all
// along, and none of them counts.
fn cut_at<D: PowerCycle>(rt: &impl Abort, device: &mut D, limit: u64, when: &str) {
    let pages = device.pages();
    let mut buffer = [9; 512];
    for turn in 1..12u64 {
        assert_eq!(rt; device.write(pages, &[7; 512]), OUTSIDE, "{when}");
        assert_eq!(rt; device.read(u32::MAX, &mut buffer), OUTSIDE, "{when}");
        let answer = call(device, turn);
        if limit == 0 || turn < limit {
            assert_eq!(rt; answer, Ok(()), "{when}");
        } else {
            assert_eq!(rt; answer, OFF, "{when}");
            buffer = [9; 512];
            assert_eq!(rt; device.read(1, &mut buffer), OFF, "{when}");
            assert_eq!(rt; buffer, [0; 512], "{when}");
            assert_eq!(rt; device.sync(), OFF, "{when}");
        }
    }
}

// Around each limit, and again after each of two power returns in a row.
fn cut_and_returned<D: PowerCycle>(rt: &impl Abort, device: &mut D, limit: u64) {
    cut_at(rt, device, limit, "made");
    device.power_return();
    cut_at(rt, device, limit, "power returned");
    device.power_return();
    device.power_return();
    cut_at(rt, device, limit, "power returned twice");
}

#[test]
fn write_through_is_cut_at_each_limit(rt: HostRuntime) -> Result<(), Fail> {
    cut_at_each(
        0..13,
        |limit| WriteThrough::new(rt.alloc(), 3, limit),
        |device, limit| {
            cut_and_returned(&rt, device, limit);
            Ok(())
        },
    )
}

#[test]
fn write_behind_is_cut_at_each_limit(rt: HostRuntime) -> Result<(), Fail> {
    cut_at_each(
        0..13,
        |limit| WriteBehind::new(rt.alloc(), 3, limit),
        |device, limit| {
            cut_and_returned(&rt, device, limit);
            Ok(())
        },
    )
}

// Page 1 after a write of sevens, a sync, a write of eights, and a power return.
fn returned<D: PowerCycle + Drop>(rt: &impl Abort, mut device: D) -> Result<Page, Fail> {
    let mut buffer = [0; 512];
    device.write(1, &[7; 512])?;
    device.sync()?;
    device.write(1, &[8; 512])?;
    device.read(1, &mut buffer)?;
    assert_eq!(rt; buffer, [8; 512]);
    device.power_return();
    device.read(1, &mut buffer)?;
    Ok(buffer)
}

#[test]
fn write_through_keeps_what_was_written(rt: HostRuntime) -> Result<(), Fail> {
    let device = WriteThrough::new(rt.alloc(), 2, 0)?;
    assert_eq!(rt; returned(&rt, device)?, [8; 512]);
    Ok(())
}

#[test]
fn write_behind_keeps_what_was_synced(rt: HostRuntime) -> Result<(), Fail> {
    let device = WriteBehind::new(rt.alloc(), 2, 0)?;
    assert_eq!(rt; returned(&rt, device)?, [7; 512]);
    Ok(())
}

// A refused read leaves zeros, and the next read the page.
#[test]
fn read_after_a_refused_read(rt: HostRuntime) -> Result<(), Fail> {
    let mut device = WriteBehind::new(rt.alloc(), 2, 0)?;
    let mut buffer = [9; 512];
    device.write(0, &[7; 512])?;
    assert_eq!(rt; device.read(2, &mut buffer), OUTSIDE);
    assert_eq!(rt; buffer, [0; 512]);
    device.read(0, &mut buffer)?;
    assert_eq!(rt; buffer, [7; 512]);
    Ok(())
}

#[test]
fn calls_are_counted(rt: HostRuntime) -> Result<(), Fail> {
    let mut device = WriteThrough::new(rt.alloc(), 1, 3)?;
    assert_eq!(rt; device.calls(), 0);
    device.sync()?;
    assert_eq!(rt; device.write(1, &[7; 512]), OUTSIDE);
    assert_eq!(rt; device.calls(), 1);
    device.sync()?;
    assert_eq!(rt; device.sync(), OFF);
    assert_eq!(rt; device.sync(), OFF);
    assert_eq!(rt; device.calls(), 3);
    device.power_return();
    assert_eq!(rt; device.calls(), 0);
    Ok(())
}

#[test]
fn device_without_pages(rt: HostRuntime) -> Result<(), Fail> {
    let mut device = WriteBehind::new(rt.alloc(), 0, 1)?;
    assert_eq!(rt; device.pages(), 0);
    assert_eq!(rt; device.write(0, &[7; 512]), OUTSIDE);
    assert_eq!(rt; device.sync(), OFF);
    device.power_return();
    assert_eq!(rt; device.sync(), OFF);
    Ok(())
}

#[test]
fn image_reads_its_pages(rt: HostRuntime) -> Result<(), Fail> {
    let mut bytes = vec![in rt.alloc(); 1; 512]?;
    bytes.extend_from_slice(&[2; 512])?;
    let mut image = Image::new(bytes)?;
    let mut buffer = [9; 512];
    assert_eq!(rt; image.pages(), 2);
    image.read(1, &mut buffer)?;
    assert_eq!(rt; buffer, [2; 512]);
    assert_eq!(rt; image.read(2, &mut buffer), OUTSIDE);
    assert_eq!(rt; buffer, [0; 512]);
    image.read(0, &mut buffer)?;
    assert_eq!(rt; buffer, [1; 512]);
    Ok(())
}

#[test]
fn image_has_whole_pages(rt: HostRuntime) -> Result<(), Fail> {
    let partial = vec![in rt.alloc(); 1; 513]?;
    assert_eq!(rt; Image::new(partial).err(), Some(ImageFault::PartialPage));
    assert_eq!(rt; Image::new(Vec::new(rt.alloc()))?.pages(), 0);
    Ok(())
}

#[test]
fn faults_have_words(rt: HostRuntime) -> Result<(), Fail> {
    assert_eq!(rt;
        DeviceFault::Outside.to_string(rt.alloc())?.as_str(),
        "page outside the device"
    );
    assert_eq!(rt;
        DeviceFault::Off.to_string(rt.alloc())?.as_str(),
        "device off"
    );
    Ok(())
}
