// Pages with keys and separators of 64 bytes, each of which a letter stands for: they differ in their last byte, and
// are in the order of the letters.
use page::{BranchPage, Grown, LeafPage};
use std::test::Fail;

// The key, or separator, of a letter.
pub(crate) fn key(letter: u8) -> [u8; 64] {
    let mut bytes = [b'-'; 64];
    bytes[63] = letter;
    bytes
}

// The value that is put under the key of a letter.
pub(crate) fn value(letter: u8) -> [u8; 50] {
    [letter; 50]
}

pub(crate) fn one<P: Drop>(edited: Option<Grown<P>>) -> Result<P, Fail> {
    match edited.ok_or("refused")? {
        Grown::One(page) => Ok(page),
        Grown::Two(..) => Err(Fail::new("cut")),
    }
}

// A leaf with one pair.
pub(crate) fn lone(key: &[u8], value: &[u8]) -> Result<LeafPage, Fail> {
    one(LeafPage::empty().put(key, value))
}

// A leaf with a pair for each letter, of which there may be four. A pair costs 118.
pub(crate) fn leaf(letters: &[u8]) -> Result<LeafPage, Fail> {
    let mut leaf = LeafPage::empty();
    for letter in letters {
        leaf = one(leaf.put(&key(*letter), &value(*letter)))?;
    }
    Ok(leaf)
}

// A branch with three children, and the separators of two letters between them. A separator costs 72.
pub(crate) fn branch(children: [u32; 3], letters: &[u8; 2]) -> Result<BranchPage, Fail> {
    let [first, second, third] = children;
    let [low, high] = *letters;
    let branch = BranchPage::root(first, &key(low), second).ok_or("no root")?;
    one(branch.insert(1, second, &key(high), third))
}
