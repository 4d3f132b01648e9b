// The numbers of faults and causes, and their words as they are printed.
use device::DeviceFault;
use faults::StoreFault;
use page::{Cause, Damage, PageFault};
use std::test::Fail;

#[test]
fn faults_have_numbers(rt: HostRuntime) {
    let faults = [
        (StoreFault::Shut, 1),
        (StoreFault::InTransaction, 2),
        (StoreFault::NoTransaction, 3),
        (StoreFault::KeyLength, 4),
        (StoreFault::Absent, 6),
        (StoreFault::NoMeta, 8),
        (StoreFault::from(DeviceFault::Outside), 9),
        (StoreFault::from(DeviceFault::Off), 10),
        (StoreFault::PageCount, 11),
        (StoreFault::LastCommit, 12),
        (StoreFault::NoCell, 13),
    ];
    for (fault, number) in faults {
        assert_eq!(rt; fault.number(), number);
    }
}

// Each is fault 9, whatever the cause.
#[test]
fn causes_have_numbers(rt: HostRuntime) {
    let causes = [
        (Cause::Checksum, 1),
        (Cause::Kind, 2),
        (Cause::Layout, 3),
        (Cause::Order, 4),
        (Cause::Bounds, 5),
        (Cause::Underfull, 6),
        (Cause::Child, 7),
        (Cause::PairCount, 8),
    ];
    for (cause, number) in causes {
        let fault = StoreFault::Page(PageFault::from(Damage { page: 5, cause }));
        assert_eq!(rt; cause.number(), number);
        assert_eq!(rt; fault.number(), 9);
    }
}

// A fault of the store alone, one of the device, and a damaged page.
#[test]
fn faults_have_words(rt: HostRuntime) -> Result<(), Fail> {
    let damage = PageFault::from(Damage {
        page: 5,
        cause: Cause::Order,
    });
    let faults = [
        (StoreFault::Shut, "fault 1: the store is shut"),
        (DeviceFault::Off.into(), "fault 10: device off"),
        (
            damage.into(),
            "fault 9: page 5, cause 4: keys or separators do not rise",
        ),
    ];
    for (fault, words) in faults {
        assert_eq!(rt; fault.to_string(rt.alloc())?.as_str(), words);
    }
    Ok(())
}
