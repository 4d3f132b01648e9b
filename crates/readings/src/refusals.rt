// Cards whose walk does not begin, or breaks off: of a wrong size, without a commit, or off. And how much is read.
use crate::cards::{Card, damaged, empty, sound, three_levels, two_levels};
use device::DeviceFault;
use faults::StoreFault;
use meta::Meta;
use page::{Cause, PageFault};
use std::test::Fail;
use walk::{Summary, check, check_room, has_room};

const OFF: Result<Summary, StoreFault> = Err(StoreFault::Page(PageFault::Device(DeviceFault::Off)));

#[test]
fn a_card_has_16_to_1024_pages(rt: HostRuntime) -> Result<(), Fail> {
    for pages in [16, 1024] {
        let card = empty(rt.alloc(), pages)?;
        assert_eq!(rt; card.check(rt.alloc())?, sound(0, 0, 1), "{pages} pages");
    }
    for pages in [15, 1025] {
        let card = empty(rt.alloc(), pages)?;
        assert_eq!(rt;
            card.check(rt.alloc())?,
            Err(StoreFault::PageCount),
            "{pages} pages"
        );
    }
    Ok(())
}

#[test]
fn room_for_16_to_1024_pages(rt: HostRuntime) {
    for (pages, fits) in [
        (0, false),
        (15, false),
        (16, true),
        (1024, true),
        (1025, false),
    ] {
        let answer = if fits {
            Ok(())
        } else {
            Err(StoreFault::PageCount)
        };
        assert_eq!(rt; has_room(pages), fits, "{pages} pages");
        assert_eq!(rt; check_room(pages), answer, "{pages} pages");
    }
}

#[test]
fn a_blank_card_has_no_meta(rt: HostRuntime) -> Result<(), Fail> {
    let card = Card::blank(rt.alloc(), 16)?;
    assert_eq!(rt; card.check(rt.alloc())?, Err(StoreFault::NoMeta));
    Ok(())
}

// The meta page of a card of 17 pages, and that of an odd commit on page 0.
#[test]
fn a_meta_of_another_card_or_place_does_not_count(rt: HostRuntime) -> Result<(), Fail> {
    let meta = Meta {
        pages: 16,
        root: 15,
        commit: 0,
        pairs: 0,
        levels: 1,
    };
    let mut card = empty(rt.alloc(), 16)?;
    card.set(0, &meta.encode())?;
    assert_eq!(rt; card.check(rt.alloc())?, sound(0, 0, 1));
    card.set(0, &Meta { pages: 17, ..meta }.encode())?;
    assert_eq!(rt; card.check(rt.alloc())?, Err(StoreFault::NoMeta));
    card.set(0, &Meta { commit: 1, ..meta }.encode())?;
    assert_eq!(rt; card.check(rt.alloc())?, Err(StoreFault::NoMeta));
    Ok(())
}

// A call for each of the two meta pages, and one for each page of the tree, of which there are 4 and 13.
#[test]
fn each_page_is_read_once(rt: HostRuntime) -> Result<(), Fail> {
    let mut disk = two_levels(rt.alloc())?.disk(rt.alloc(), 0)?;
    assert_eq!(rt; disk.calls(), 0);
    assert_eq!(rt; check(&mut disk), sound(7, 9, 2));
    assert_eq!(rt; disk.calls(), 2 + 4);
    let mut disk = three_levels(rt.alloc())?.disk(rt.alloc(), 0)?;
    assert_eq!(rt; check(&mut disk), sound(4, 18, 3));
    assert_eq!(rt; disk.calls(), 2 + 13);
    Ok(())
}

// Of three leaves the last is not read where the second is damaged.
#[test]
fn a_walk_ends_at_its_first_fault(rt: HostRuntime) -> Result<(), Fail> {
    let mut card = two_levels(rt.alloc())?;
    card.spoil(14, 100, 1)?;
    let mut disk = card.disk(rt.alloc(), 0)?;
    assert_eq!(rt; check(&mut disk), damaged(14, Cause::Checksum));
    assert_eq!(rt; disk.calls(), 2 + 3);
    Ok(())
}

// Each of the six reads of a check fails in turn.
#[test]
fn a_disk_goes_off_at_each_read(rt: HostRuntime) -> Result<(), Fail> {
    let card = two_levels(rt.alloc())?;
    for limit in 1..7 {
        let mut disk = card.disk(rt.alloc(), limit)?;
        assert_eq!(rt; check(&mut disk), OFF, "limit {limit}");
    }
    let mut disk = card.disk(rt.alloc(), 7)?;
    assert_eq!(rt; check(&mut disk), sound(7, 9, 2));
    Ok(())
}

// The number of pages is asked for first, and that is no call.
#[test]
fn a_small_disk_that_is_off_is_too_small(rt: HostRuntime) -> Result<(), Fail> {
    let mut disk = Card::blank(rt.alloc(), 15)?.disk(rt.alloc(), 1)?;
    assert_eq!(rt; check(&mut disk), Err(StoreFault::PageCount));
    assert_eq!(rt; disk.calls(), 0);
    Ok(())
}
