// A pair out of a page buffer.
use crate::makers::{branch, lone, one};
use device::Page;
use faults::StoreFault;
use page::LeafPage;
use search::pair;
use std::test::Fail;

// "cab" with "1290", whose cell is at 503, and "taxi" with "18.40", whose cell is at 492.
fn two_pairs() -> Result<Page, Fail> {
    let cab = lone(b"cab", b"1290")?;
    let leaf = one(cab.put(b"taxi", b"18.40"))?;
    Ok(*leaf.bytes())
}

#[test]
fn pairs_lie_in_the_buffer(rt: HostRuntime) -> Result<(), Fail> {
    let buffer = two_pairs()?;
    let cab = pair(&buffer, 0)?;
    assert!(rt; cab.key == b"cab".as_slice());
    assert!(rt; cab.value == b"1290".as_slice());
    assert_eq!(rt; (cab.key_offset, cab.value_offset), (505, 508));
    let taxi = pair(&buffer, 1)?;
    assert!(rt; taxi.key == b"taxi".as_slice());
    assert!(rt; taxi.value == b"18.40".as_slice());
    assert_eq!(rt; (taxi.key_offset, taxi.value_offset), (494, 498));
    Ok(())
}

#[test]
fn an_empty_value_is_there(rt: HostRuntime) -> Result<(), Fail> {
    let buffer = *lone(b"k", b"")?.bytes();
    let parts = pair(&buffer, 0)?;
    assert!(rt; parts.key == b"k".as_slice());
    assert!(rt; parts.value == b"".as_slice());
    assert_eq!(rt; (parts.key_offset, parts.value_offset), (511, 512));
    Ok(())
}

// A wrong checksum is passed over.
#[test]
fn the_checksum_is_not_looked_at(rt: HostRuntime) -> Result<(), Fail> {
    let mut buffer = two_pairs()?;
    buffer[12] ^= 1;
    let parts = pair(&buffer, 0)?;
    assert!(rt; parts.key == b"cab".as_slice());
    assert!(rt; parts.value == b"1290".as_slice());
    assert_eq!(rt; (parts.key_offset, parts.value_offset), (505, 508));
    Ok(())
}

#[test]
fn a_cell_that_is_too_large_is_refused(rt: HostRuntime) -> Result<(), Fail> {
    for cell in [2, 3, 248, usize::MAX] {
        assert_eq!(rt; pair(&two_pairs()?, cell).err(), Some(StoreFault::NoCell));
    }
    let empty = LeafPage::empty();
    assert_eq!(rt; pair(empty.bytes(), 0).err(), Some(StoreFault::NoCell));
    Ok(())
}

#[test]
fn a_buffer_of_another_kind_is_refused(rt: HostRuntime) -> Result<(), Fail> {
    let branch = branch([8, 9, 10], b"hi")?;
    assert_eq!(rt; pair(branch.bytes(), 0).err(), Some(StoreFault::NoCell));
    assert_eq!(rt; pair(&[0; 512], 0).err(), Some(StoreFault::NoCell));
    assert_eq!(rt; pair(&[1; 512], 0).err(), Some(StoreFault::NoCell));
    Ok(())
}

// A byte that should be zero, the length of the first key and of its value, and a second key that is below the first:
// all pairs are refused.
#[test]
fn a_leaf_that_is_none_is_refused(rt: HostRuntime) -> Result<(), Fail> {
    for (at, byte) in [(1, 1), (503, 4), (504, 5), (494, b'a')] {
        for cell in [0, 1] {
            let mut buffer = two_pairs()?;
            buffer[at] = byte;
            assert_eq!(rt;
                pair(&buffer, cell).err(),
                Some(StoreFault::NoCell),
                "byte {at}"
            );
        }
    }
    Ok(())
}
