ghost use Rattle.std.specs.Prelude.{◌≡◌, ◌≤◌, IfSome, IfOk};
ghost use Rattle.device.specs.Looking.{LooksOn};
ghost use Rattle.meta.specs.Laws.{Fits};
ghost use Rattle.walk.specs.Checking.{Newest, Rooted, WalksTree, Recovers, fits_pages, room_of, found_on, summed};

use crate::descent::Walk;
use crate::inspection::{Recovered, Summary};
use crate::marks::{MOST_PAGES, Marks};
use crate::spot::Spot;
use device::{DeviceFault, PAGE_SIZE, Reader};
use faults::StoreFault;
use meta::{Meta, newer};
use page::{Cause, PageFault};

// The fewest pages that a device may have.
const FEWEST_PAGES: usize = 16;

// Whether a device may have so many pages.
pub fn has_room(pages: u32) -> bool
    ensures { result ≡ fits_pages pages }
{
    // it fits, since a `usize` is as wide at least
    (FEWEST_PAGES..=MOST_PAGES).contains(&(pages as usize))
}

// Refuses a device of so many pages, if it may not have them.
pub fn check_room(pages: u32) -> Result<(), StoreFault>
    ensures { result ≡ room_of pages }
{
    if !has_room(pages) {
        return Err(StoreFault::PageCount);
    }
    Ok(())
}

// Of the meta pages that pass their test, the one with the larger commit number.
fn newest<R: Reader>(reader: &mut R, size: u32) -> Result<Option<Meta>, DeviceFault>
    ensures rooted { IfOk result (λ o. IfSome o (Rooted size)) }
    ensures reads { LooksOn R.Reader reader.old reader.new (λ m n t. 2 ≤ m.size → Newest m size n.on t result) }
{
    let mut page = [0; PAGE_SIZE];
    reader.read(0, &mut page)?;
    let first = Meta::read(&page, 0, size);
    reader.read(1, &mut page)?;
    let second = Meta::read(&page, 1, size);
    Ok(newer(first, second))
}

// Walks the tree that a meta names, and compares its pairs with what the meta says. It answers marks on the tree's
// pages.
fn walk_tree<R: Reader>(reader: &mut R, meta: &Meta, size: u32) -> Result<Marks, PageFault>
    requires small { size ≤ 1024 }
    requires rooted { Rooted size meta.now }
    ensures { LooksOn R.Reader reader.old reader.new (λ m n t. size ≤ m.size → WalksTree m size meta.now n.on t result) }
{
    let root = Spot {
        page: meta.root,
        low: &[],
        high: None,
        is_root: true,
    };
    let mut walk = Walk {
        reader,
        size,
        met: Marks::new(),
    };
    let pairs = walk.walk_from(root, meta.levels - 1)?;
    if pairs != meta.pairs {
        return Err(root.damage(Cause::PairCount).into());
    }
    Ok(walk.met)
}

// What a device holds: its newest meta, and marks on the pages of the tree that this names, which was walked. Refused
// with `PageCount` if the device has not 16 to 1,024 pages, with the device's fault if it is off, with `NoMeta` if no meta
// page passes its test, and with the page and the cause of the walk's first fault.
pub fn recover<R: Reader>(reader: &mut R) -> Result<Recovered, StoreFault>
    ensures fits { IfOk result (λ x. Fits x.meta) }
    ensures found { LooksOn R.Reader reader.old reader.new (λ m n t. Recovers m n.on t result) }
{
    let size = reader.pages();
    check_room(size)?;
    let Some(meta) = newest(reader, size)? else {
        return Err(StoreFault::NoMeta);
    };
    let marks = walk_tree(reader, &meta, size)?;
    Ok(Recovered { meta, marks })
}

// Whether a device is sound: its last commit, pairs and levels, or the fault for which it is refused.
pub fn check<R: Reader>(reader: &mut R) -> Result<Summary, StoreFault>
    ensures { LooksOn R.Reader reader.old reader.new (λ m n _. result ≡ summed (found_on m.bytes m.size n.on)) }
{
    let found = recover(reader)?;
    Ok(found.meta.into())
}
