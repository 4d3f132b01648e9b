// A page of the tree, read and tested by itself.
ghost use Rattle.std.specs.Prelude.{◌≡◌, ℕ, map, ◌++◌};
ghost use Rattle.std.specs.Option.{option_map, option_to_list};
ghost use Rattle.std.specs.Result.{result_err};
ghost use Rattle.device.specs.Looking.{On};
ghost use Rattle.page.specs.Layout.{cells_of};
ghost use Rattle.paged.specs.Walk.{all_within, fault_in, damage};
ghost use Rattle.walk.specs.Spots.{low_of, high_of, cells_filled, cells_cause};
ghost use Rattle.walk.specs.Walking.{Tests};

use crate::spot::Spot;
use cuts::key_less;
use device::Reader;
use page::{BranchCell, Cause, Cell, CellPage, Damage, LeafCell, PageFault};

// A kind of cells of the tree's pages. Pages of either kind are loaded and tested alike, but for what a root may be.
pub(crate) trait Node: Cell {
    // the fewest cells of a root
    const FEWEST: usize;

    ghost FEWEST: { ℕ };
}

// a leaf that is the root may be empty
impl Node for LeafCell {
    const FEWEST: usize = 0;

    ghost FEWEST = { 0 };
}

// a branch that is the root has a separator
impl Node for BranchCell {
    const FEWEST: usize = 1;

    ghost FEWEST = { 1 };
}

impl Spot<'_> {
    // Whether the keys are from the lower bound on and below the upper one. Of keys that rise, the first and the last
    // tell of all.
    fn bounds<C: Cell>(self, page: &CellPage<C>) -> bool
        ensures { result ≡ all_within (low_of self.entry) (high_of self.entry) (map C.rules.key (cells_of page.now.bytes)) }
    {
        let last = page.len().saturating_sub(1);
        self.spans(page.cell_key(0), page.cell_key(last))
    }

    // Whether both keys, if any, are within the bounds.
    fn spans(self, first: Option<&[u8]>, last: Option<&[u8]>) -> bool
        ensures { result ≡ all_within (low_of self.entry) (high_of self.entry) (option_to_list (option_map (λ x. x.now) first.entry) ++ option_to_list (option_map (λ x. x.now) last.entry)) }
    {
        self.holds(first) && self.holds(last)
    }

    fn holds(self, key: Option<&[u8]>) -> bool
        ensures { result ≡ all_within (low_of self.entry) (high_of self.entry) (option_to_list (option_map (λ x. x.now) key.entry)) }
    {
        let Some(key) = key else {
            return true;
        };
        !key_less(key, self.low) && self.high.is_none_or(|high| key_less(key, high))
    }

    // Whether the page has enough cells for this place.
    fn is_filled_by<C: Node>(self, page: &CellPage<C>) -> bool
        ensures { result ≡ cells_filled C.Cell C.FEWEST self.entry.is_root page.now.bytes }
    {
        if self.is_root {
            page.len() >= C::FEWEST
        } else {
            !page.is_light()
        }
    }

    pub(crate) fn damage(self, cause: Cause) -> Damage
        ensures { result ≡ damage self.entry.page cause }
    {
        Damage {
            page: self.page,
            cause,
        }
    }

    // Tests a page in this place.
    fn test<C: Node>(self, page: &CellPage<C>) -> Result<(), Damage>
        ensures { result_err result ≡ option_map (damage self.entry.page) (cells_cause C.Cell C.FEWEST self.entry page.now.bytes) }
    {
        if !self.bounds(page) {
            return Err(self.damage(Cause::Bounds));
        }
        if !self.is_filled_by(page) {
            return Err(self.damage(Cause::Underfull));
        }
        Ok(())
    }

    // The page in this place, or what is wrong with it first.
    pub(crate) fn load<C: Node, R: Reader>(self, reader: &mut R) -> Result<CellPage<C>, PageFault>
        ensures { On R.Reader reader.old reader.new (λ P m Q n. Tests (fault_in C.rules (cells_cause C.Cell C.FEWEST self.entry)) (λ p. p.bytes) P m self.entry.page result Q n) }
    {
        let page = CellPage::load(reader, self.page)?;
        self.test(&page)?;
        Ok(page)
    }
}
