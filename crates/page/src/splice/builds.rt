// Pages built anew from a list of cells, and where an overfull list is cut. One text serves every kind of cell.
ghost use Rattle.std.specs.Prelude.{◌≡◌, ◌≤◌, true, length};
ghost use Rattle.std.specs.List.{between};
ghost use Rattle.cuts.specs.Cuts.{total, fair, middle};
ghost use Rattle.page.specs.Layout.{cost, cells_of, left_of};
ghost use Rattle.page.specs.Lists.{cells_in};
ghost use Rattle.page.specs.Splices.{body_cost};

use crate::cell::Cell;
use crate::cell_page::CellPage;
use crate::draft::Draft;
use crate::splice::Splice;

impl<C: Cell> Splice<'_, C> {
    // The page of the cells from one place up to another. (That it may have this leftmost child is asked here, for the page
    // of all cells, and for a finished draft: a type for that one number would be made only to be taken apart.)
    pub(crate) fn part(&self, from: usize, to: usize, leftmost: u32) -> CellPage<C>
        requires ordered { from ≤ to }
        requires within { to ≤ length (cells_in self.now) }
        requires room { cost (between from to (cells_in self.now)) ≤ 496 }
        requires leftmost { C.rules.leftmost leftmost ≡ true }
        ensures left { left_of result.bytes ≡ leftmost }
        ensures cells { cells_of result.bytes ≡ between from to (cells_in self.now) }
    {
        let mut draft = Draft::<C>::new(leftmost);
        for i in from..to {
            draft.push(self.get(i));
        }
        draft.finish()
    }

    // The page of all cells.
    pub(crate) fn whole(&self, leftmost: u32) -> CellPage<C>
        requires room { cost (cells_in self.now) ≤ 496 }
        requires leftmost { C.rules.leftmost leftmost ≡ true }
        ensures left { left_of result.bytes ≡ leftmost }
        ensures cells { cells_of result.bytes ≡ cells_in self.now }
    {
        self.part(0, self.len(), leftmost)
    }

    // How many cells an overfull leaf keeps: the cut whose larger part is cheapest.
    pub(crate) fn fair_cut(&self) -> usize
        ensures { result ≡ fair body_cost 0 (cells_in self.now) }
    {
        let n = self.len();
        let mut left = 0;
        let mut right = self.cost();
        for i in 0..n {
            let one = 2 + self.get(i).bytes.len();
            right -= one;
            if left >= right {
                return i;
            }
            left += one;
        }
        n
    }

    // Which cell an overfull branch gives up: the first at which it and those before it cost more than half.
    pub(crate) fn middle_cut(&self) -> usize
        ensures { result ≡ middle body_cost (total body_cost (cells_in self.now)) 0 (cells_in self.now) }
    {
        let n = self.len();
        let all = self.cost();
        let mut left = 0;
        for i in 0..n {
            left += 2 + self.get(i).bytes.len();
            if 2 * left > all {
                return i;
            }
        }
        n
    }
}
