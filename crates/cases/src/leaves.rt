// Leaves; the checksums of whole pages were computed by another program.
use crate::grown::{one, two};
use crate::texts::is;
use device::PAGE_SIZE;
use page::{Cause, LeafPage};
use std::test::Fail;

#[test]
fn empty_leaf(rt: HostRuntime) {
    let leaf = LeafPage::empty();
    assert_eq!(rt; leaf.len(), 0);
    let bytes = leaf.bytes();
    assert_eq!(rt; bytes[0], 1);
    assert_eq!(rt; bytes[4], 0x00);
    assert_eq!(rt; bytes[5], 0x02);
    assert!(rt; &bytes[12..16] == [0xa6, 0x84, 0x00, 0x15].as_slice());
}

#[test]
fn one_pair(rt: HostRuntime) -> Result<(), Fail> {
    let leaf = one(LeafPage::empty().put(b"k", b"v"))?;
    let bytes = leaf.bytes();
    assert_eq!(rt; bytes[16], 0xfc);
    assert_eq!(rt; bytes[17], 0x01);
    assert_eq!(rt; bytes[508], 0x01);
    assert_eq!(rt; bytes[509], 0x01);
    assert_eq!(rt; bytes[510], 0x6b);
    assert_eq!(rt; bytes[511], 0x76);
    assert!(rt; &bytes[12..16] == [0x60, 0x53, 0x9d, 0x43].as_slice());
    assert_eq!(rt; leaf.find(b"k"), Some(0));
    assert_eq!(rt; leaf.find(b"j"), None);
    assert_eq!(rt; leaf.above(b"j"), 0);
    assert_eq!(rt; leaf.above(b"k"), 1);
    Ok(())
}

#[test]
fn lengths_of_keys_and_values(rt: HostRuntime) {
    let leaf = LeafPage::empty();
    assert!(rt; leaf.put(&[1; 64], &[2; 128]).is_some());
    assert!(rt; leaf.put(&[1; 65], &[2; 128]).is_none());
    assert!(rt; leaf.put(&[1; 64], &[2; 129]).is_none());
    assert!(rt; leaf.put(b"", b"v").is_none());
    assert!(rt; leaf.put(b"k", b"").is_some());
}

// Three cells of 196: the first alone goes left.
#[test]
fn three_large_cells_are_cut_after_the_first(rt: HostRuntime) -> Result<(), Fail> {
    let leaf = one(LeafPage::empty().put(&[1; 64], &[0; 128]))?;
    let leaf = one(leaf.put(&[2; 64], &[0; 128]))?;
    let (left, separator, right) = two(leaf.put(&[3; 64], &[0; 128]))?;
    assert_eq!(rt; left.len(), 1);
    assert_eq!(rt; right.len(), 2);
    assert!(rt; separator.as_slice() == [2].as_slice());
    Ok(())
}

// A leaf reads back, and no byte of it can be turned without notice.
#[test]
fn damage_is_noticed(rt: HostRuntime) -> Result<(), Fail> {
    let leaf = one(LeafPage::empty().put(b"cab", b"1290"))?;
    let leaf = one(leaf.put(b"taxi", b"18.40"))?;
    let mut bytes = *leaf.bytes();
    assert_eq!(rt; LeafPage::read(&bytes).err(), None);
    for i in 0..PAGE_SIZE {
        bytes[i] ^= 1;
        assert_eq!(rt; LeafPage::read(&bytes).err(), Some(Cause::Checksum));
        checksum::seal(&mut bytes);
        if !(12..16).contains(&i) {
            assert!(rt; LeafPage::read(&bytes).err() != Some(Cause::Checksum));
        }
        bytes = *leaf.bytes();
    }
    Ok(())
}

#[test]
fn removed_pairs_are_gone(rt: HostRuntime) -> Result<(), Fail> {
    let leaf = one(LeafPage::empty().put(b"cab", b"1290"))?;
    let both = one(leaf.put(b"taxi", b"18.40"))?;
    let one = both.remove(b"taxi").ok_or("not removed")?;
    assert!(rt; one.bytes() == leaf.bytes());
    assert!(rt; both.remove(b"tax").is_none());
    Ok(())
}

// A leaf that costs 196 for one pair, and 68 and the value for the other.
fn two_pairs(value: &[u8]) -> Result<LeafPage, Fail> {
    let leaf = one(LeafPage::empty().put(&[2; 64], &[0; 128]))?;
    one(leaf.put(&[3; 64], value))
}

// 123 and 373 make one leaf; 123 and 374 are cut.
#[test]
fn joined_leaves_fit_up_to_496(rt: HostRuntime) -> Result<(), Fail> {
    let light = one(LeafPage::empty().put(&[1], &[0; 118]))?;
    assert_eq!(rt; light.cost(), 123);
    let right = two_pairs(&[0; 109])?;
    assert_eq!(rt; right.cost(), 373);
    assert_eq!(rt; one(light.join(&right))?.len(), 3);
    let right = two_pairs(&[0; 110])?;
    let (left, _, right) = two(light.join(&right))?;
    assert_eq!(rt; left.len(), 2);
    assert_eq!(rt; right.len(), 1);
    Ok(())
}

#[test]
fn leaves_out_of_order_or_filled_are_not_joined(rt: HostRuntime) -> Result<(), Fail> {
    let light = one(LeafPage::empty().put(b"k", b"v"))?;
    let filled = two_pairs(&[0; 110])?;
    assert!(rt; light.join(&light).is_none());
    assert!(rt; filled.join(&filled).is_none());
    assert!(rt; LeafPage::empty().join(&light).is_some());
    Ok(())
}

#[test]
fn keys_and_values_by_place(rt: HostRuntime) -> Result<(), Fail> {
    let leaf = one(LeafPage::empty().put(b"taxi", b"18.40"))?;
    let leaf = one(leaf.put(b"cab", b""))?;
    assert!(rt; is(leaf.key(0), b"cab"));
    assert!(rt; is(leaf.value(0), b""));
    assert!(rt; is(leaf.key(1), b"taxi"));
    assert!(rt; is(leaf.value(1), b"18.40"));
    assert!(rt; leaf.key(2).is_none());
    assert!(rt; leaf.value(2).is_none());
    Ok(())
}
