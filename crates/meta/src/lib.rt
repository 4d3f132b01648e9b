// Meta pages: what a commit leaves in page 0 or 1, the test that such a page passes, and which of the two counts.
#![tactic(auto)]

mod choose;
mod encode;
pub mod laws;
mod read;

pub use choose::newer;

// The second byte of a meta page; the first is its kind.
const VERSION: u8 = 1;

// What a meta page says.
#[derive(Clone, Copy, PartialEq, Eq, Debug)]
pub struct Meta {
    // how many pages the device has
    pub pages: u32,
    // the page of the tree's root
    pub root: u32,
    // the number of the commit
    pub commit: u64,
    // how many pairs the tree holds
    pub pairs: u32,
    // how many levels the tree has
    pub levels: u8,
}
