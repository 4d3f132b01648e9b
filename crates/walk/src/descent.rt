// The walk over a whole tree.
ghost use Rattle.std.specs.Prelude.{◌≡◌, ◌<◌, ◌≤◌, false, slice_index_or};
ghost use Rattle.device.specs.Looking.{On};
ghost use Rattle.paged.specs.Walk.{walk};
ghost use Rattle.walk.specs.Spots.{low_of, high_of};
ghost use Rattle.walk.specs.Walking.{Walks};

use crate::marks::Marks;
use crate::spot::Spot;
use device::Reader;
use page::{BranchPage, Cause, LeafPage, PageFault};

// A walk over the pages of a reader, of which there are `size`, with marks on those met so far.
#[derive(Drop)]
pub(crate) struct Walk<'r, R> {
    pub(crate) reader: &'r mut R,
    pub(crate) size: u32,
    pub(crate) met: Marks,
}

impl<R: Reader> Walk<'_, R> {
    // Walks the tree from a page on, with `height` levels of branches down to its leaves, and counts its pairs. Each
    // page is read once, tested, and marked; then come its children from the left.
    pub(crate) fn walk_from(&mut self, at: Spot<'_>, height: u8) -> Result<u32, PageFault>
        requires small { self.old.size ≤ 1024 }
        requires inside { at.page < self.old.size }
        requires unmet { slice_index_or self.old.met.marked at.page false ≡ false }
        ensures same_reader { self.new.reader.ghost_name ≡ self.old.reader.ghost_name }
        ensures same_size { self.new.size ≡ self.old.size }
        ensures walks { On R.Reader self.old.reader.now self.new.reader.now (λ P m Q n. Walks P m Q n self.old.size self.old.met.marked self.new.met.marked (λ pages. walk pages self.old.size at.entry.is_root height (low_of at.entry) (high_of at.entry) at.entry.page) result) }
    {
        self.met.mark(at.page);
        if height == 0 {
            let leaf: LeafPage = at.load(self.reader)?;
            // it fits: a leaf has at most 248 pairs
            return Ok(leaf.len() as u32);
        }
        let branch: BranchPage = at.load(self.reader)?;
        let mut pairs = 0;
        for i in 0..=branch.len() {
            let child = at.child(&branch, i);
            if !self.met.admits(self.size, child.page) {
                return Err(at.damage(Cause::Child).into());
            }
            pairs += self.walk_from(child, height - 1)?;
        }
        Ok(pairs)
    }
}
