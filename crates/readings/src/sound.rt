// Sound cards, and which of two commits counts.
use crate::cards::{empty, sound, three_levels, two_levels};
use crate::makers::leaf;
use faults::StoreFault;
use std::test::Fail;

#[test]
fn an_empty_leaf_is_sound(rt: HostRuntime) -> Result<(), Fail> {
    let card = empty(rt.alloc(), 16)?;
    assert_eq!(rt; card.check(rt.alloc())?, sound(0, 0, 1));
    Ok(())
}

// A root may be underfull, and may be full.
#[test]
fn a_leaf_with_pairs_is_sound(rt: HostRuntime) -> Result<(), Fail> {
    let mut card = empty(rt.alloc(), 16)?;
    card.set(9, leaf(b"a")?.bytes())?;
    card.commit(1, 9, 1, 1)?;
    assert_eq!(rt; card.check(rt.alloc())?, sound(1, 1, 1));
    card.set(9, leaf(b"abcd")?.bytes())?;
    card.commit(1, 9, 4, 1)?;
    assert_eq!(rt; card.check(rt.alloc())?, sound(1, 4, 1));
    Ok(())
}

#[test]
fn a_branch_with_three_leaves_is_sound(rt: HostRuntime) -> Result<(), Fail> {
    let card = two_levels(rt.alloc())?;
    assert_eq!(rt; card.check(rt.alloc())?, sound(7, 9, 2));
    Ok(())
}

#[test]
fn three_levels_are_sound(rt: HostRuntime) -> Result<(), Fail> {
    let card = three_levels(rt.alloc())?;
    assert_eq!(rt; card.check(rt.alloc())?, sound(4, 18, 3));
    Ok(())
}

// Commit 6 stands beside commit 7, and then commit 8.
#[test]
fn the_newer_commit_counts(rt: HostRuntime) -> Result<(), Fail> {
    let mut card = two_levels(rt.alloc())?;
    assert_eq!(rt; card.check(rt.alloc())?, sound(7, 9, 2));
    card.commit(8, 3, 0, 1)?;
    assert_eq!(rt; card.check(rt.alloc())?, sound(8, 0, 1));
    Ok(())
}

// A torn meta page is passed over: with the newer one torn the older counts, and with both there is none.
#[test]
fn a_torn_commit_does_not_count(rt: HostRuntime) -> Result<(), Fail> {
    let mut card = two_levels(rt.alloc())?;
    card.spoil(0, 20, 1)?;
    assert_eq!(rt; card.check(rt.alloc())?, sound(7, 9, 2));
    let mut card = two_levels(rt.alloc())?;
    card.spoil(1, 20, 1)?;
    assert_eq!(rt; card.check(rt.alloc())?, sound(6, 0, 1));
    card.spoil(0, 20, 1)?;
    assert_eq!(rt; card.check(rt.alloc())?, Err(StoreFault::NoMeta));
    Ok(())
}

// Pages outside the tree, among them those of the older commit, may hold anything.
#[test]
fn other_pages_are_not_looked_at(rt: HostRuntime) -> Result<(), Fail> {
    let mut card = two_levels(rt.alloc())?;
    for page in 3..13 {
        card.set(page, &[0xff; 512])?;
    }
    assert_eq!(rt; card.check(rt.alloc())?, sound(7, 9, 2));
    Ok(())
}
