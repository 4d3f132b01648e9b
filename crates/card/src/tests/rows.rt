// The lines of `card pages`.
use crate::pages::row;
use device::Page;
use disks::Image;
use meta::Meta;
use page::{BranchPage, Grown, LeafPage};
use std::alloc::Global;
use std::test::Fail;
use survey::{Tree, newest};

const SIXTH: Meta = Meta {
    pages: 16,
    root: 3,
    commit: 6,
    pairs: 1,
    levels: 1,
};

const SEVENTH: Meta = Meta {
    pages: 16,
    root: 5,
    commit: 7,
    pairs: 2,
    levels: 2,
};

// A leaf with one large pair.
fn leaf(key: &[u8]) -> Result<Page, Fail> {
    match LeafPage::empty().put(key, &[7; 128]).ok_or("no such pair")? {
        Grown::One(leaf) => Ok(*leaf.bytes()),
        Grown::Two(..) => Err("the leaf is full".into()),
    }
}

// A card of 16 pages, whose newest tree is a branch on page 5 over the leaves on pages 2 and 4.
fn card(alloc: Global) -> Result<Image, Fail> {
    let root = BranchPage::root(2, b"m", 4).ok_or("no such root")?;
    let pages = [
        SIXTH.encode(),
        SEVENTH.encode(),
        leaf(b"a")?,
        leaf(b"a")?,
        leaf(b"m")?,
        *root.bytes(),
    ];
    let mut bytes = Vec::new(alloc);
    for page in &pages {
        bytes.extend_from_slice(page)?;
    }
    bytes.resize(16 * 512, 0)?;
    Ok(Image::new(bytes)?)
}

#[test]
fn lines_of_a_sound_card(rt: HostRuntime) -> Result<(), Fail> {
    let mut image = card(rt.alloc())?;
    let tree = Tree::of(&mut image)?;
    let commit = newest(&mut image)?.map(|meta| meta.commit);
    let lines = [
        "   0  meta    commit 6",
        "   1  meta    commit 7, the newest",
        "   2  leaf    cells  1, cost 133, child of 5",
        "   3  leaf    cells  1, cost 133, in no tree",
        "   4  leaf    cells  1, cost 133, child of 5",
        "   5  branch  cells  1, cost   9, the root",
        "   6  unused",
    ];
    for (page, line) in (0..).zip(lines) {
        let found = row(&mut image, page, commit, Some(&tree))?.to_string(rt.alloc())?;
        assert_eq!(rt; found.as_str(), line);
    }
    Ok(())
}

#[test]
fn lines_without_a_tree(rt: HostRuntime) -> Result<(), Fail> {
    let mut image = card(rt.alloc())?;
    let lines = [
        "   0  meta    commit 6",
        "   1  meta    commit 7",
        "   2  leaf    cells  1, cost 133",
    ];
    for (page, line) in (0..).zip(lines) {
        let found = row(&mut image, page, None, None)?.to_string(rt.alloc())?;
        assert_eq!(rt; found.as_str(), line);
    }
    Ok(())
}
