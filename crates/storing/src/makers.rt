// Keys and pages for these tests.
use meta::Meta;
use page::{Grown, LeafPage};
use std::test::Fail;

// Keys of up to 65 bytes are its beginnings.
pub(crate) const LONG: [u8; 65] = [b'k'; 65];

// A leaf with one pair more, for which it has room.
pub(crate) fn with(leaf: &LeafPage, key: &[u8], value: &[u8]) -> Result<LeafPage, Fail> {
    match leaf.put(key, value).ok_or("no such pair")? {
        Grown::One(leaf) => Ok(leaf),
        Grown::Two(..) => Err(Fail::new("cut")),
    }
}

// A commit on a device of 16 pages: an empty leaf on page 2 is its tree.
pub(crate) fn empty(commit: u64) -> Meta {
    Meta {
        pages: 16,
        root: 2,
        commit,
        pairs: 0,
        levels: 1,
    }
}
