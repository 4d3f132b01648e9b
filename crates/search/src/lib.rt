// The search for a key, and for the first key above one, down a tree that lies on the pages of any reader.
//
// What it finds in a sound tree is what the map of the tree's pairs has (specs/Finding.antt). Each page is tested when
// it is loaded; on pages that hold no such tree, a search is safe and ends.
#![tactic(auto)]

ghost use Rattle.device.specs.Looking.{On};
ghost use Rattle.tree.specs.Maps.{first_above};
ghost use Rattle.search.specs.Finding.{Searches, pair_with};

use device::Reader;
use page::{LeafPage, PageFault};

mod descent;
mod lookup;

pub use lookup::pair;

// A tree on the pages of a reader: from page `root` on, with `height` levels of branches above its leaves.
#[derive(Clone, Copy, PartialEq, Eq, Debug)]
pub struct Tree {
    pub root: u32,
    pub height: u8,
}

// A pair's place: the leaf that holds it, and the number of its cell.
#[derive(Clone, Copy)]
pub struct Place {
    pub leaf: LeafPage,
    pub cell: usize,
}

impl Tree {
    // The place of the pair with this key.
    pub fn find<R: Reader>(self, reader: &mut R, key: &[u8]) -> Result<Option<Place>, PageFault>
        ensures { On R.Reader reader.old reader.new (λ P m Q n. Searches P m Q n self (pair_with key.now) result) }
    {
        self.find_down(reader, key)
    }

    // The place of the first pair with a greater key. The key may be empty.
    pub fn after<R: Reader>(self, reader: &mut R, key: &[u8]) -> Result<Option<Place>, PageFault>
        ensures { On R.Reader reader.old reader.new (λ P m Q n. Searches P m Q n self (first_above key.now) result) }
    {
        self.after_down(reader, key)
    }
}
