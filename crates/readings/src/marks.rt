// What a recovery finds: the meta that counts, and marks on the pages of its tree.
use crate::cards::two_levels;
use meta::Meta;
use std::test::Fail;
use walk::{Marks, recover};

#[test]
fn the_pages_of_the_tree_are_marked(rt: HostRuntime) -> Result<(), Fail> {
    let mut image = two_levels(rt.alloc())?.image(rt.alloc())?;
    let found = recover(&mut image)?;
    let meta = Meta {
        pages: 16,
        root: 2,
        commit: 7,
        pairs: 9,
        levels: 2,
    };
    assert_eq!(rt; found.meta, meta);
    for page in 0..1025 {
        let is_of_tree = [2, 13, 14, 15].contains(&page);
        assert_eq!(rt; found.marks.has(page), is_of_tree, "page {page}");
    }
    Ok(())
}

#[test]
fn pages_to_1023_are_marked(rt: HostRuntime) {
    let mut marks = Marks::new();
    for page in [0, 7, 1023, 1024, u32::MAX] {
        assert!(rt; !marks.has(page), "page {page}");
        marks.mark(page);
        assert_eq!(rt; marks.has(page), page < 1024, "page {page}");
    }
    assert!(rt; !marks.has(8));
}
