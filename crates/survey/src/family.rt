ghost use Rattle.std.specs.Prelude.{◌≡◌};
ghost use Rattle.device.specs.Looking.{LooksOn};
ghost use Rattle.survey.specs.Families.{FindsTree, TellsNewest, place_in};

use crate::parents::Parents;
use device::{DeviceFault, PAGE_SIZE, Reader};
use faults::StoreFault;
use meta::{Meta, newer};
use walk::{Marks, recover};

// The tree of a sound card: the meta page that names it, marks on its pages, and the parent of each.
#[derive(Clone, Copy)]
pub struct Tree {
    pub meta: Meta,
    pub marks: Marks,
    pub parents: Parents,
}

// Where a leaf or a branch stands in a tree.
#[derive(Clone, Copy, PartialEq, Eq, Debug)]
pub enum Place {
    Root,
    // a child of this page
    ChildOf(u32),
    // in no tree: an older version left it
    NoTree,
}

impl Tree {
    // The tree of a card, or the fault for which a store refuses the card.
    pub fn of<R: Reader>(reader: &mut R) -> Result<Tree, StoreFault>
        ensures { LooksOn R.Reader reader.old reader.new (λ m n _. FindsTree m.bytes m.size n.on result) }
    {
        let found = recover(reader)?;
        let parents = Parents::of(reader, &found.marks)?;
        Ok(Tree {
            meta: found.meta,
            marks: found.marks,
            parents,
        })
    }

    pub fn place(&self, page: u32) -> Place
        ensures { result ≡ place_in self.now page }
    {
        if !self.marks.has(page) {
            return Place::NoTree;
        }
        if page == self.meta.root {
            return Place::Root;
        }
        self.parents.get(page).map_or(Place::NoTree, Place::ChildOf)
    }
}

// Of the meta pages of a card that pass their test, the one with the larger commit number.
pub fn newest<R: Reader>(reader: &mut R) -> Result<Option<Meta>, DeviceFault>
    ensures { LooksOn R.Reader reader.old reader.new (λ m n _. TellsNewest m.bytes m.size n.on result) }
{
    let size = reader.pages();
    if size < 2 {
        return Ok(None);
    }
    let mut page = [0; PAGE_SIZE];
    reader.read(0, &mut page)?;
    let first = Meta::read(&page, 0, size);
    reader.read(1, &mut page)?;
    let second = Meta::read(&page, 1, size);
    Ok(newer(first, second))
}
