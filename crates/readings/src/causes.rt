// Each cause, with the page that is named. Where the card has an older commit, that is sound, and does not stand in.
use crate::cards::{damaged, sound, three_levels, two_levels};
use crate::makers::{branch, key, leaf, lone, one};
use page::{BranchPage, Cause, LeafPage};
use std::test::Fail;

// A byte is changed, and the checksum is not; or it is the checksum that is changed. Zeros have another checksum, too.
#[test]
fn a_checksum_is_wrong(rt: HostRuntime) -> Result<(), Fail> {
    for page in [2, 13, 14, 15] {
        for at in [0, 12, 15, 16, 300, 511] {
            let mut card = two_levels(rt.alloc())?;
            card.spoil(page, at, b'?')?;
            let answer = card.check(rt.alloc())?;
            assert_eq!(rt; answer, damaged(page, Cause::Checksum), "byte {at}");
        }
        let mut card = two_levels(rt.alloc())?;
        card.set(page, &[0; 512])?;
        assert_eq!(rt; card.check(rt.alloc())?, damaged(page, Cause::Checksum));
    }
    Ok(())
}

// A leaf where a branch should be, the other way round, and a page whose kind is that of a meta page.
#[test]
fn a_page_is_of_another_kind(rt: HostRuntime) -> Result<(), Fail> {
    let mut card = two_levels(rt.alloc())?;
    card.set(2, leaf(b"abc")?.bytes())?;
    assert_eq!(rt; card.check(rt.alloc())?, damaged(2, Cause::Kind));
    let mut card = two_levels(rt.alloc())?;
    card.set(14, branch([8, 9, 10], b"hi")?.bytes())?;
    assert_eq!(rt; card.check(rt.alloc())?, damaged(14, Cause::Kind));
    let mut card = two_levels(rt.alloc())?;
    card.alter(15, 0, 3)?;
    assert_eq!(rt; card.check(rt.alloc())?, damaged(15, Cause::Kind));
    Ok(())
}

// The meta page says one level too few: its root should be a leaf. Or one too many: a leaf should be a branch.
#[test]
fn a_tree_has_other_levels(rt: HostRuntime) -> Result<(), Fail> {
    let mut card = two_levels(rt.alloc())?;
    card.commit(7, 2, 9, 1)?;
    assert_eq!(rt; card.check(rt.alloc())?, damaged(2, Cause::Kind));
    card.commit(7, 2, 9, 3)?;
    assert_eq!(rt; card.check(rt.alloc())?, damaged(13, Cause::Kind));
    Ok(())
}

// In turn: a byte that should be zero, the number of cells, where the lowest begins, and a byte that should be zero; of
// a leaf the child that only a branch has; the first cell's place, and a byte between places and cells. The first cell
// of a leaf, from 396 on, has the lengths of key and value; that of a branch, from 442 on, its separator's and a zero.
#[test]
fn a_layout_is_wrong(rt: HostRuntime) -> Result<(), Fail> {
    let of_leaf = [1, 2, 4, 6, 8, 16, 22, 396, 397];
    let of_branch = [1, 2, 4, 6, 16, 20, 442, 443];
    for (page, places) in [(14, of_leaf.as_slice()), (2, of_branch.as_slice())] {
        for at in places {
            let mut card = two_levels(rt.alloc())?;
            card.alter(page, *at, 7)?;
            let answer = card.check(rt.alloc())?;
            assert_eq!(rt; answer, damaged(page, Cause::Layout), "byte {at}");
        }
    }
    Ok(())
}

// The letter of the second key, or separator, is made that of the first, or a lesser one. It is at 345, or at 441.
#[test]
fn keys_or_separators_do_not_rise(rt: HostRuntime) -> Result<(), Fail> {
    let letters = [
        (13, 345, b'a'),
        (13, 345, b'A'),
        (2, 441, b'g'),
        (2, 441, b'G'),
    ];
    for (page, at, letter) in letters {
        let mut card = two_levels(rt.alloc())?;
        card.alter(page, at, letter)?;
        let answer = card.check(rt.alloc())?;
        assert_eq!(rt; answer, damaged(page, Cause::Order), "{letter} at {at}");
    }
    Ok(())
}

// The keys should be below "g", from "g" on and below "p", and from "p" on.
#[test]
fn keys_are_outside_their_bounds(rt: HostRuntime) -> Result<(), Fail> {
    for (page, letters) in [(13, b"abg"), (14, b"fij"), (14, b"hip"), (15, b"oqr")] {
        let mut card = two_levels(rt.alloc())?;
        card.set(page, leaf(letters)?.bytes())?;
        let answer = card.check(rt.alloc())?;
        assert_eq!(rt; answer, damaged(page, Cause::Bounds), "page {page}");
    }
    Ok(())
}

// Those of the last leaf under page 2 should be below "g", and those of the first under page 3 from "g" on.
#[test]
fn keys_are_outside_bounds_from_the_root(rt: HostRuntime) -> Result<(), Fail> {
    for (page, letters) in [(7, b"eg"), (8, b"fh")] {
        let mut card = three_levels(rt.alloc())?;
        card.set(page, leaf(letters)?.bytes())?;
        let answer = card.check(rt.alloc())?;
        assert_eq!(rt; answer, damaged(page, Cause::Bounds), "page {page}");
    }
    Ok(())
}

// Those of page 2 should be below "g", those of page 3 from "g" on and below "m", and those of page 4 from "m" on.
#[test]
fn separators_are_outside_their_bounds(rt: HostRuntime) -> Result<(), Fail> {
    for (page, letters) in [(2, b"cg"), (3, b"fk"), (3, b"im"), (4, b"lq")] {
        let mut card = three_levels(rt.alloc())?;
        card.set(page, branch([8, 9, 10], letters)?.bytes())?;
        let answer = card.check(rt.alloc())?;
        assert_eq!(rt; answer, damaged(page, Cause::Bounds), "page {page}");
    }
    Ok(())
}

// A leaf other than the root costs 124 at least.
#[test]
fn a_leaf_is_underfull(rt: HostRuntime) -> Result<(), Fail> {
    let mut card = two_levels(rt.alloc())?;
    card.commit(7, 2, 7, 2)?;
    card.set(14, lone(&key(b'i'), &[0; 56])?.bytes())?;
    assert_eq!(rt; card.check(rt.alloc())?, sound(7, 7, 2));
    card.set(14, lone(&key(b'i'), &[0; 55])?.bytes())?;
    assert_eq!(rt; card.check(rt.alloc())?, damaged(14, Cause::Underfull));
    card.set(14, LeafPage::empty().bytes())?;
    assert_eq!(rt; card.check(rt.alloc())?, damaged(14, Cause::Underfull));
    Ok(())
}

// Page 4 with a last separator other than "q".
fn with_last_separator(separator: &[u8]) -> Result<BranchPage, Fail> {
    let branch = BranchPage::root(11, &key(b'o'), 12).ok_or("no root")?;
    one(branch.insert(1, 12, separator, 13))
}

// So does a branch: 72 for its first separator, and 52 for one of 44 bytes. These are above the keys of all letters, so
// the last leaf gets another pair.
#[test]
fn a_branch_is_underfull(rt: HostRuntime) -> Result<(), Fail> {
    let mut card = three_levels(rt.alloc())?;
    card.commit(4, 15, 17, 3)?;
    card.set(13, lone(&[b'z'; 64], &[0; 56])?.bytes())?;
    card.set(4, with_last_separator(&[b'y'; 44])?.bytes())?;
    assert_eq!(rt; card.check(rt.alloc())?, sound(4, 17, 3));
    card.set(4, with_last_separator(&[b'y'; 43])?.bytes())?;
    assert_eq!(rt; card.check(rt.alloc())?, damaged(4, Cause::Underfull));
    Ok(())
}

// A root with two children and one separator is sound; with one child and no separator it is not.
#[test]
fn a_branch_root_has_no_separator(rt: HostRuntime) -> Result<(), Fail> {
    let root = BranchPage::root(13, &key(b'g'), 14).ok_or("no root")?;
    let mut card = two_levels(rt.alloc())?;
    card.commit(7, 2, 6, 2)?;
    card.set(2, root.bytes())?;
    assert_eq!(rt; card.check(rt.alloc())?, sound(7, 6, 2));
    card.set(2, root.merge(0, 13).ok_or("not merged")?.bytes())?;
    assert_eq!(rt; card.check(rt.alloc())?, damaged(2, Cause::Underfull));
    Ok(())
}

// A child of the root that is a meta page, lies outside the card, is the root, or was met to the left.
#[test]
fn a_child_of_the_root_is_no_page_of_the_tree(rt: HostRuntime) -> Result<(), Fail> {
    let roots = [
        [0, 14, 15],
        [1, 14, 15],
        [13, 16, 15],
        [13, 14, u32::MAX],
        [2, 14, 15],
        [13, 13, 15],
        [13, 14, 13],
        [13, 14, 14],
    ];
    for children in roots {
        let mut card = two_levels(rt.alloc())?;
        card.set(2, branch(children, b"gp")?.bytes())?;
        let answer = card.check(rt.alloc())?;
        assert_eq!(rt; answer, damaged(2, Cause::Child), "children {children:?}");
    }
    Ok(())
}

// A child of page 3 or 4 that is the root, page 2, or a leaf under page 2; and each is a child of its own.
#[test]
fn a_child_was_met_before(rt: HostRuntime) -> Result<(), Fail> {
    for child in [15, 2, 5, 7, 3] {
        let mut card = three_levels(rt.alloc())?;
        card.set(3, branch([8, child, 10], b"ik")?.bytes())?;
        let answer = card.check(rt.alloc())?;
        assert_eq!(rt; answer, damaged(3, Cause::Child), "child {child}");
        let mut card = three_levels(rt.alloc())?;
        card.set(4, branch([child, 12, 13], b"oq")?.bytes())?;
        let answer = card.check(rt.alloc())?;
        assert_eq!(rt; answer, damaged(4, Cause::Child), "child {child}");
    }
    Ok(())
}

// The meta page says another number of pairs: the root is named.
#[test]
fn a_pair_count_is_wrong(rt: HostRuntime) -> Result<(), Fail> {
    for pairs in [0, 8, 10, u32::MAX] {
        let mut card = two_levels(rt.alloc())?;
        card.commit(7, 2, pairs, 2)?;
        let answer = card.check(rt.alloc())?;
        assert_eq!(rt; answer, damaged(2, Cause::PairCount), "{pairs} pairs");
    }
    Ok(())
}
