// Of two faults and more, the one that is named.
use crate::cards::{damaged, three_levels, two_levels};
use crate::makers::{branch, key, leaf};
use page::{BranchPage, Cause};
use std::test::Fail;

// Page 14 gets one fault more each time, and the new one is named: it is underfull, and its key is below "g"; its keys
// do not rise; a byte should be zero; the kind is none; the checksum is wrong.
#[test]
fn the_first_cause_in_a_leaf_is_named(rt: HostRuntime) -> Result<(), Fail> {
    let mut card = two_levels(rt.alloc())?;
    card.set(14, leaf(b"a")?.bytes())?;
    assert_eq!(rt; card.check(rt.alloc())?, damaged(14, Cause::Bounds));
    card.set(14, leaf(b"abc")?.bytes())?;
    card.alter(14, 345, b'A')?;
    assert_eq!(rt; card.check(rt.alloc())?, damaged(14, Cause::Order));
    card.alter(14, 1, 1)?;
    assert_eq!(rt; card.check(rt.alloc())?, damaged(14, Cause::Layout));
    card.alter(14, 0, 0)?;
    assert_eq!(rt; card.check(rt.alloc())?, damaged(14, Cause::Kind));
    card.spoil(14, 12, b'?')?;
    assert_eq!(rt; card.check(rt.alloc())?, damaged(14, Cause::Checksum));
    Ok(())
}

// So does page 3: its first child is none; it is underfull; its separator is below "g".
#[test]
fn the_first_cause_in_a_branch_is_named(rt: HostRuntime) -> Result<(), Fail> {
    let mut card = three_levels(rt.alloc())?;
    card.set(3, branch([1, 9, 10], b"ik")?.bytes())?;
    assert_eq!(rt; card.check(rt.alloc())?, damaged(3, Cause::Child));
    let light = BranchPage::root(1, &key(b'i'), 10).ok_or("no root")?;
    card.set(3, light.bytes())?;
    assert_eq!(rt; card.check(rt.alloc())?, damaged(3, Cause::Underfull));
    let outside = BranchPage::root(1, &key(b'a'), 10).ok_or("no root")?;
    card.set(3, outside.bytes())?;
    assert_eq!(rt; card.check(rt.alloc())?, damaged(3, Cause::Bounds));
    Ok(())
}

// One page more is damaged each time, from the last that is met to the first: a branch comes before its children, and
// these from the left, each with all that is below it.
#[test]
fn the_page_that_is_met_first_is_named(rt: HostRuntime) -> Result<(), Fail> {
    let mut card = three_levels(rt.alloc())?;
    for page in [13, 12, 11, 4, 10, 9, 8, 3, 7, 6, 5, 2, 15] {
        card.spoil(page, 100, b'?')?;
        let answer = card.check(rt.alloc())?;
        assert_eq!(rt; answer, damaged(page, Cause::Checksum), "page {page}");
    }
    Ok(())
}

// The second child of the root is none. A fault in the first is met before, and one in the third is not.
#[test]
fn a_child_that_is_none_is_named_in_its_turn(rt: HostRuntime) -> Result<(), Fail> {
    let mut card = two_levels(rt.alloc())?;
    card.set(2, branch([13, 1, 15], b"gp")?.bytes())?;
    card.spoil(15, 100, b'?')?;
    assert_eq!(rt; card.check(rt.alloc())?, damaged(2, Cause::Child));
    card.spoil(13, 100, b'?')?;
    assert_eq!(rt; card.check(rt.alloc())?, damaged(13, Cause::Checksum));
    Ok(())
}

// The pairs are counted at the end.
#[test]
fn a_pair_count_is_named_last(rt: HostRuntime) -> Result<(), Fail> {
    let mut card = two_levels(rt.alloc())?;
    card.commit(7, 2, 8, 2)?;
    assert_eq!(rt; card.check(rt.alloc())?, damaged(2, Cause::PairCount));
    card.spoil(15, 100, b'?')?;
    assert_eq!(rt; card.check(rt.alloc())?, damaged(15, Cause::Checksum));
    Ok(())
}
