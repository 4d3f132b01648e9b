// Cards in memory, and what a check says of them.
use crate::makers::{branch, leaf};
use device::{Device, Page};
use disks::{Image, WriteBehind};
use faults::StoreFault;
use meta::Meta;
use page::{Cause, Damage, LeafPage, PageFault};
use std::alloc::{AllocError, Global};
use std::test::Fail;
use walk::Summary;

// The pages of a card.
#[derive(Drop)]
pub(crate) struct Card {
    pages: Vec<Page>,
}

impl Card {
    // Pages of zeros.
    pub(crate) fn blank(heap: Global, pages: usize) -> Result<Self, AllocError> {
        Ok(Card {
            pages: vec![in heap; [0; 512]; pages]?,
        })
    }

    pub(crate) fn set(&mut self, page: u32, bytes: &Page) -> Result<(), Fail> {
        let place = self.pages.get_mut(page as usize).ok_or("no such page")?;
        *place = *bytes;
        Ok(())
    }

    // Changes a byte of a page, and no other: its checksum is wrong then.
    pub(crate) fn spoil(&mut self, page: u32, at: usize, byte: u8) -> Result<(), Fail> {
        let place = self.pages.get_mut(page as usize).ok_or("no such page")?;
        *place.get_mut(at).ok_or("no such byte")? = byte;
        Ok(())
    }

    // Changes a byte of a page, and makes its checksum right.
    pub(crate) fn alter(&mut self, page: u32, at: usize, byte: u8) -> Result<(), Fail> {
        self.spoil(page, at, byte)?;
        let place = self.pages.get_mut(page as usize).ok_or("no such page")?;
        checksum::seal(place);
        Ok(())
    }

    // The meta page of a commit, in its place.
    pub(crate) fn commit(
        &mut self,
        commit: u64,
        root: u32,
        pairs: u32,
        levels: u8,
    ) -> Result<(), Fail> {
        let meta = Meta {
            pages: u32::try_from(self.pages.len())?,
            root,
            commit,
            pairs,
            levels,
        };
        self.set((commit % 2) as u32, &meta.encode())
    }

    pub(crate) fn image(&self, heap: Global) -> Result<Image, Fail> {
        let mut bytes = Vec::new(heap);
        for page in &self.pages {
            bytes.extend_from_slice(page)?;
        }
        Ok(Image::new(bytes)?)
    }

    // The card as a disk that is on for the calls before the limit, which is 0 for none.
    pub(crate) fn disk(&self, heap: Global, limit: u64) -> Result<WriteBehind, Fail> {
        let pages = u32::try_from(self.pages.len())?;
        let mut disk = WriteBehind::new(heap, pages, 0)?;
        for (page, number) in self.pages.iter().zip(0..pages) {
            disk.write(number, page)?;
        }
        disk.sync()?;
        Ok(disk.with_limit(limit))
    }

    pub(crate) fn check(&self, heap: Global) -> Result<Result<Summary, StoreFault>, Fail> {
        let mut image = self.image(heap)?;
        Ok(walk::check(&mut image))
    }
}

pub(crate) fn sound(commit: u64, pairs: u32, levels: u8) -> Result<Summary, StoreFault> {
    Ok(Summary {
        commit,
        pairs,
        levels,
    })
}

pub(crate) fn damaged(page: u32, cause: Cause) -> Result<Summary, StoreFault> {
    Err(StoreFault::Page(PageFault::Damaged(Damage { page, cause })))
}

// An empty leaf for root, on the last page.
pub(crate) fn empty(heap: Global, pages: u32) -> Result<Card, Fail> {
    let mut card = Card::blank(heap, pages as usize)?;
    let root = pages.checked_sub(1).ok_or("no pages")?;
    card.set(root, LeafPage::empty().bytes())?;
    card.commit(0, root, 0, 1)?;
    Ok(card)
}

// Commit 7, with nine pairs on three leaves: page 2 is the root, and 13, 14 and 15 are its children. Page 3 is an empty
// leaf, the root of commit 6.
pub(crate) fn two_levels(heap: Global) -> Result<Card, Fail> {
    let mut card = Card::blank(heap, 16)?;
    card.commit(6, 3, 0, 1)?;
    card.set(3, LeafPage::empty().bytes())?;
    card.commit(7, 2, 9, 2)?;
    card.set(2, branch([13, 14, 15], b"gp")?.bytes())?;
    card.set(13, leaf(b"abc")?.bytes())?;
    card.set(14, leaf(b"hij")?.bytes())?;
    card.set(15, leaf(b"pqr")?.bytes())?;
    Ok(card)
}

// Commit 4, with 18 pairs on nine leaves: page 15 is the root, 2, 3 and 4 are its children, and 5 to 13 are theirs.
pub(crate) fn three_levels(heap: Global) -> Result<Card, Fail> {
    let mut card = Card::blank(heap, 16)?;
    card.commit(4, 15, 18, 3)?;
    card.set(15, branch([2, 3, 4], b"gm")?.bytes())?;
    card.set(2, branch([5, 6, 7], b"ce")?.bytes())?;
    card.set(3, branch([8, 9, 10], b"ik")?.bytes())?;
    card.set(4, branch([11, 12, 13], b"oq")?.bytes())?;
    let leaves = [
        b"ab", b"cd", b"ef", b"gh", b"ij", b"kl", b"mn", b"op", b"qr",
    ];
    for (letters, page) in leaves.iter().zip(5..14) {
        card.set(page, leaf(*letters)?.bytes())?;
    }
    Ok(card)
}
