// Branches; the checksum of a whole page was computed by another program.
use crate::grown::{one, two};
use crate::texts::is;
use page::{BranchPage, Cause, LeafPage};
use std::test::Fail;

fn root(left: u32, separator: &[u8], right: u32) -> Result<BranchPage, Fail> {
    Ok(BranchPage::root(left, separator, right).ok_or("no root")?)
}

// 5 "cab13" 6 "tr" 9
fn three_children() -> Result<BranchPage, Fail> {
    let branch = root(5, b"cab13", 6)?;
    one(branch.insert(1, 6, b"tr", 9))
}

#[test]
fn children_and_separators(rt: HostRuntime) -> Result<(), Fail> {
    let branch = three_children()?;
    assert_eq!(rt; branch.len(), 2);
    assert_eq!(rt; branch.child(0), Some(5));
    assert_eq!(rt; branch.child(1), Some(6));
    assert_eq!(rt; branch.child(2), Some(9));
    assert_eq!(rt; branch.child(3), None);
    assert!(rt; is(branch.separator(0), b"cab13"));
    assert!(rt; is(branch.separator(1), b"tr"));
    assert!(rt; branch.separator(2).is_none());
    assert_eq!(rt; branch.cost(), 13 + 10);
    Ok(())
}

#[test]
fn bytes_of_a_branch(rt: HostRuntime) -> Result<(), Fail> {
    let branch = three_children()?;
    let bytes = branch.bytes();
    assert!(rt; &bytes[0..12] == [2, 0, 2, 0, 0xed, 1, 0, 0, 5, 0, 0, 0].as_slice());
    assert!(rt; &bytes[12..16] == [0x5d, 0x78, 0x5c, 0xaf].as_slice());
    assert!(rt; &bytes[16..20] == [0xf5, 1, 0xed, 1].as_slice());
    assert!(rt; &bytes[493..501] == [2, 0, 9, 0, 0, 0, 0x74, 0x72].as_slice());
    assert!(rt; BranchPage::read(bytes).is_ok());
    assert_eq!(rt; LeafPage::read(bytes).err(), Some(Cause::Kind));
    Ok(())
}

// A key goes to the child between the separator that is at most the key, and the one above it.
#[test]
fn places_of_keys(rt: HostRuntime) -> Result<(), Fail> {
    let branch = three_children()?;
    assert_eq!(rt; branch.place(b"cab12"), 0);
    assert_eq!(rt; branch.place(b"cab13"), 1);
    assert_eq!(rt; branch.place(b"taxi"), 1);
    assert_eq!(rt; branch.place(b"tr"), 2);
    assert_eq!(rt; branch.place(b"trip"), 2);
    Ok(())
}

#[test]
fn separators_out_of_bounds_or_order_are_refused(rt: HostRuntime) -> Result<(), Fail> {
    let branch = three_children()?;
    assert!(rt; BranchPage::root(5, b"", 6).is_none());
    assert!(rt; BranchPage::root(5, &[1; 64], 6).is_some());
    assert!(rt; BranchPage::root(5, &[1; 65], 6).is_none());
    assert!(rt; branch.insert(1, 6, b"cab13", 7).is_none());
    assert!(rt; branch.insert(3, 6, b"z", 7).is_none());
    Ok(())
}

// Seven cells of 72 cost 504: the fourth is the first at which more than half is reached, and goes up.
#[test]
fn overfull_branch_gives_up_its_middle(rt: HostRuntime) -> Result<(), Fail> {
    let mut branch = root(1, &[1; 64], 2)?;
    for i in 1..6u8 {
        let next = u32::from(i) + 1;
        branch = one(branch.insert(usize::from(i), next, &[i + 1; 64], next + 1))?;
    }
    assert_eq!(rt; branch.len(), 6);
    let (left, separator, right) = two(branch.insert(6, 7, &[7; 64], 8))?;
    assert_eq!(rt; left.len(), 3);
    assert!(rt; separator.as_slice() == [4; 64].as_slice());
    assert_eq!(rt; right.len(), 3);
    assert_eq!(rt; right.child(0), Some(5));
    Ok(())
}

#[test]
fn joined_branches_take_the_separator_between(rt: HostRuntime) -> Result<(), Fail> {
    let left = three_children()?;
    let right = root(11, b"zzz", 12)?;
    assert!(rt; left.join(b"aa", &right).is_none());
    let branch = one(left.join(b"zz", &right))?;
    assert_eq!(rt; branch.len(), 4);
    assert!(rt; is(branch.separator(2), b"zz"));
    assert_eq!(rt; branch.child(3), Some(11));
    assert_eq!(rt; branch.child(4), Some(12));
    Ok(())
}
