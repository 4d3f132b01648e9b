// The search for a key, and for the next pair. Pairs are compared by their letters, with the cells that hold them.
use crate::cards::{three_levels, two_levels};
use crate::makers::{key, value};
use device::DeviceFault;
use page::{Cause, Damage, PageFault};
use search::{Place, Tree};
use std::test::Fail;

// The tree with two levels.
const LOW: Tree = Tree { root: 2, height: 1 };

// The tree with three.
const TALL: Tree = Tree {
    root: 15,
    height: 2,
};

// The letter of a pair that was found, and its cell.
fn found(answer: Result<Option<Place>, PageFault>) -> Result<Option<(u8, usize)>, Fail> {
    let Some(Place { leaf, cell }) = answer? else {
        return Ok(None);
    };
    let bytes = leaf.key(cell).ok_or("no such cell")?;
    let letter = *bytes.last().ok_or("an empty key")?;
    let under = leaf.value(cell).ok_or("no such cell")?;
    if bytes == key(letter).as_slice() && under == value(letter).as_slice() {
        Ok(Some((letter, cell)))
    } else {
        Err(Fail::new("the pair of no letter"))
    }
}

#[test]
fn keys_are_found(rt: HostRuntime) -> Result<(), Fail> {
    let mut image = two_levels(rt.alloc())?.image(rt.alloc())?;
    for letters in [b"abc", b"hij", b"pqr"] {
        for (cell, letter) in letters.iter().enumerate() {
            let answer = found(LOW.find(&mut image, &key(*letter)))?;
            assert_eq!(rt; answer, Some((*letter, cell)));
        }
    }
    Ok(())
}

// Below all, between two pairs on either side of a separator, and above all.
#[test]
fn absent_keys_are_not_found(rt: HostRuntime) -> Result<(), Fail> {
    let mut image = two_levels(rt.alloc())?.image(rt.alloc())?;
    for letter in *b"Adfgkoz" {
        let answer = found(LOW.find(&mut image, &key(letter)))?;
        assert_eq!(rt; answer, None, "{letter}");
    }
    Ok(())
}

// The key of "h" without its last byte is before all keys, and with one byte more it is between "h" and "i".
#[test]
fn a_longer_or_shorter_key_is_another(rt: HostRuntime) -> Result<(), Fail> {
    let mut image = two_levels(rt.alloc())?.image(rt.alloc())?;
    let shorter = [b'-'; 63];
    assert_eq!(rt; found(LOW.find(&mut image, &shorter))?, None);
    assert_eq!(rt; found(LOW.after(&mut image, &shorter))?, Some((b'a', 0)));
    let mut longer = [0; 65];
    longer[..64].copy_from_slice(&key(b'h'));
    assert_eq!(rt; found(LOW.find(&mut image, &longer))?, None);
    assert_eq!(rt; found(LOW.after(&mut image, &longer))?, Some((b'i', 1)));
    Ok(())
}

#[test]
fn the_next_pair_is_found(rt: HostRuntime) -> Result<(), Fail> {
    let mut image = two_levels(rt.alloc())?.image(rt.alloc())?;
    let nexts = [
        (b'A', Some((b'a', 0))),
        (b'a', Some((b'b', 1))),
        (b'b', Some((b'c', 2))),
        (b'c', Some((b'h', 0))),
        (b'd', Some((b'h', 0))),
        (b'g', Some((b'h', 0))),
        (b'i', Some((b'j', 2))),
        (b'j', Some((b'p', 0))),
        (b'o', Some((b'p', 0))),
        (b'q', Some((b'r', 2))),
        (b'r', None),
        (b'z', None),
    ];
    for (letter, next) in nexts {
        let answer = found(LOW.after(&mut image, &key(letter)))?;
        assert_eq!(rt; answer, next, "after {letter}");
    }
    assert_eq!(rt; found(LOW.after(&mut image, b""))?, Some((b'a', 0)));
    Ok(())
}

// From the empty key on, each pair in turn: two to a leaf, an odd letter first.
#[test]
fn all_pairs_are_found_in_turn(rt: HostRuntime) -> Result<(), Fail> {
    let mut image = three_levels(rt.alloc())?.image(rt.alloc())?;
    assert_eq!(rt; found(TALL.after(&mut image, b""))?, Some((b'a', 0)));
    for letter in b'a'..b'r' {
        let answer = found(TALL.after(&mut image, &key(letter)))?;
        let cell = usize::from(letter % 2);
        assert_eq!(rt; answer, Some((letter + 1, cell)), "after {letter}");
    }
    assert_eq!(rt; found(TALL.after(&mut image, &key(b'r')))?, None);
    Ok(())
}

#[test]
fn nothing_is_found_in_an_empty_leaf(rt: HostRuntime) -> Result<(), Fail> {
    let empty = Tree { root: 3, height: 0 };
    let mut image = two_levels(rt.alloc())?.image(rt.alloc())?;
    assert_eq!(rt; found(empty.find(&mut image, &key(b'a')))?, None);
    assert_eq!(rt; found(empty.after(&mut image, b""))?, None);
    Ok(())
}

fn damaged(page: u32, cause: Cause) -> Option<PageFault> {
    Some(PageFault::Damaged(Damage { page, cause }))
}

// Page 14 is damaged: a key on page 13 is found, and so is the next pair there, but no pair on page 14.
#[test]
fn a_damaged_page_on_the_way_is_named(rt: HostRuntime) -> Result<(), Fail> {
    let mut card = two_levels(rt.alloc())?;
    card.spoil(14, 100, b'?')?;
    let mut image = card.image(rt.alloc())?;
    let fault = damaged(14, Cause::Checksum);
    assert_eq!(rt; found(LOW.find(&mut image, &key(b'c')))?, Some((b'c', 2)));
    assert_eq!(rt; LOW.find(&mut image, &key(b'h')).err(), fault);
    assert_eq!(rt; found(LOW.after(&mut image, &key(b'b')))?, Some((b'c', 2)));
    assert_eq!(rt; LOW.after(&mut image, &key(b'c')).err(), fault);
    assert_eq!(rt; LOW.after(&mut image, &key(b'h')).err(), fault);
    Ok(())
}

// Trees that are none: of other heights, and with a root outside the card.
#[test]
fn a_tree_that_is_none_is_refused(rt: HostRuntime) -> Result<(), Fail> {
    let mut image = two_levels(rt.alloc())?.image(rt.alloc())?;
    let a = key(b'a');
    let low = Tree { root: 2, height: 0 };
    assert_eq!(rt; low.find(&mut image, &a).err(), damaged(2, Cause::Kind));
    assert_eq!(rt; low.after(&mut image, &a).err(), damaged(2, Cause::Kind));
    let tall = Tree { root: 2, height: 2 };
    assert_eq!(rt; tall.find(&mut image, &a).err(), damaged(13, Cause::Kind));
    assert_eq!(rt; tall.after(&mut image, &a).err(), damaged(13, Cause::Kind));
    let outside = Tree {
        root: 16,
        height: 0,
    };
    let fault = Some(PageFault::Device(DeviceFault::Outside));
    assert_eq!(rt; outside.find(&mut image, &a).err(), fault);
    assert_eq!(rt; outside.after(&mut image, &a).err(), fault);
    Ok(())
}

// A search reads one page of each level; where the next pair is on the next leaf, that leaf too.
#[test]
fn a_search_reads_the_pages_on_its_way(rt: HostRuntime) -> Result<(), Fail> {
    let card = three_levels(rt.alloc())?;
    let mut disk = card.disk(rt.alloc(), 0)?;
    assert_eq!(rt; found(TALL.find(&mut disk, &key(b'c')))?, Some((b'c', 0)));
    assert_eq!(rt; disk.calls(), 3);
    assert_eq!(rt; found(TALL.after(&mut disk, &key(b'c')))?, Some((b'd', 1)));
    assert_eq!(rt; disk.calls(), 6);
    assert_eq!(rt; found(TALL.after(&mut disk, &key(b'd')))?, Some((b'e', 0)));
    assert_eq!(rt; disk.calls(), 10);
    // up to the root, and down again under its next child
    assert_eq!(rt; found(TALL.after(&mut disk, &key(b'f')))?, Some((b'g', 0)));
    assert_eq!(rt; disk.calls(), 15);
    Ok(())
}

#[test]
fn a_disk_that_goes_off_is_named(rt: HostRuntime) -> Result<(), Fail> {
    let card = two_levels(rt.alloc())?;
    let fault = Some(PageFault::Device(DeviceFault::Off));
    for limit in 1..3 {
        let mut disk = card.disk(rt.alloc(), limit)?;
        assert_eq!(rt; LOW.find(&mut disk, &key(b'a')).err(), fault);
        let mut disk = card.disk(rt.alloc(), limit)?;
        assert_eq!(rt; LOW.after(&mut disk, &key(b'c')).err(), fault);
    }
    let mut disk = card.disk(rt.alloc(), 3)?;
    assert_eq!(rt; found(LOW.find(&mut disk, &key(b'a')))?, Some((b'a', 0)));
    Ok(())
}
