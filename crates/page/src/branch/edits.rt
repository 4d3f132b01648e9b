ghost use Rattle.std.specs.Prelude.{◌≡◌, ◌+◌, ◌<◌, ◌≤◌, true, ◌++◌, map, length, take, drop};
ghost use Rattle.cuts.specs.Cuts.{total, middle};
ghost use Rattle.cuts.specs.Nodes.{cell_cost};
ghost use Rattle.tree.specs.Places.{separator_at};
ghost use Rattle.tree.specs.Trees.{branch, cell};
ghost use Rattle.page.specs.Branches.{CutsBranch, ascending, ends_below, starts_above};
ghost use Rattle.page.specs.Growths.{around, branch_grown, fitted_branch, GrowsTo, TwoEnds};
ghost use Rattle.page.specs.Kinds.{branch_key, cell_of};
ghost use Rattle.page.specs.Layout.{cost};
ghost use Rattle.page.specs.Lists.{cells_in};
ghost use Rattle.page.specs.Views.{branch_node};

use crate::body::Body;
use crate::branch::BranchPage;
use crate::cell::{BranchCell, is_key_len};
use crate::cell_page::CellPage;
use crate::grown::Grown;
use crate::short::Short;
use crate::splice::{Splice, USABLE};
use cuts::key_less;
use std::marker::PhantomData;

impl Splice<'_, BranchCell> {
    // Which cell an overfull list gives up: the parts before and after it fit a page.
    fn branch_cut(&self) -> usize
        requires overfull { 496 < cost (cells_in self.now) }
        requires few { cost (cells_in self.now) ≤ 691 }
        ensures value { result ≡ middle cell_cost (total cell_cost (map cell_of (cells_in self.now))) 0 (map cell_of (cells_in self.now)) }
        ensures parts { CutsBranch (cells_in self.now) result }
    {
        self.middle_cut()
    }

    // The cells as one branch, or as two where they are too many for one. Not one function with that of leaves: they cut by
    // other rules, and what a leaf has to make for a separator is a cell that a branch gives up.
    fn branches(&self, leftmost: u32) -> Grown<BranchPage>
        requires { cost (cells_in self.now) ≤ 691 }
        ensures { branch_grown result ≡ fitted_branch (branch leftmost (map cell_of (cells_in self.now))) }
    {
        if self.cost() <= USABLE {
            return Grown::One(self.whole(leftmost));
        }
        let at = self.branch_cut();
        let given = self.get(at);
        Grown::Two(
            self.part(0, at, leftmost),
            given.separator(),
            self.part(at + 1, self.len(), given.child()),
        )
    }
}

impl CellPage<BranchCell> {
    // The same cells after another leftmost child.
    pub(crate) fn with_first(&self, leftmost: u32) -> BranchPage
        ensures { branch_node result ≡ branch leftmost (branch_node self.now).rest }
    {
        self.splice(0, None, self, 0).whole(leftmost)
    }

    // Another cell with the same separator in place of one.
    fn set_cell<'a>(&'a self, i: usize, cell: Body<'a, BranchCell>) -> BranchPage
        requires within { i < length (branch_node self.now).rest }
        requires same { branch_key cell.bytes.now ≡ separator_at i (branch_node self.now).rest }
        ensures { branch_node result ≡ around self.now i (cell_of cell.entry.bytes.now) self.now (i + 1) }
    {
        let leftmost = self.cells().leftmost();
        self.splice(i, Some(cell), self, i + 1).whole(leftmost)
    }

    // Another child for one of the cells.
    pub(crate) fn with_later(&self, i: usize, child: u32) -> BranchPage
        requires { i < length (branch_node self.now).rest }
        ensures { branch_node result ≡ around self.now i (cell (separator_at i (branch_node self.now).rest) child) self.now (i + 1) }
    {
        let cell = Short::branch_cell(self.cells().key(i), child);
        let body = Body {
            bytes: cell.as_slice(),
            kind: PhantomData,
        };
        self.set_cell(i, body)
    }

    // The first cells of this branch, a new one, and the last cells of a branch.
    fn with_new<'a>(
        &'a self,
        keep: usize,
        cell: Body<'a, BranchCell>,
        back: &'a BranchPage,
        skip: usize,
    ) -> Grown<BranchPage>
        requires ends { TwoEnds self.now keep back.now skip }
        requires rises { ascending (around self.now keep (cell_of cell.bytes.now) back.now skip).rest ≡ true }
        ensures { branch_grown result ≡ fitted_branch (around self.now keep (cell_of cell.entry.bytes.now) back.now skip) }
    {
        let leftmost = self.cells().leftmost();
        self.splice(keep, Some(cell), back, skip).branches(leftmost)
    }

    // Whether a separator is above those of the first cells.
    fn ends_below(&self, n: usize, separator: &[u8]) -> bool
        requires { n ≤ length (branch_node self.now).rest }
        ensures { result ≡ ends_below (take n (branch_node self.now).rest) separator.now }
    {
        n == 0 || key_less(self.cells().key(n - 1), separator)
    }

    // Whether a separator is below those of the last cells.
    fn starts_above(&self, n: usize, separator: &[u8]) -> bool
        ensures { result ≡ starts_above separator.now (drop n (branch_node self.now).rest) }
    {
        let cells = self.cells();
        n >= cells.len() || key_less(separator, cells.key(n))
    }

    // The first cells of this branch, a cell of this separator and child, and the last cells of a branch; none, if
    // that cannot be a separator there. (What is kept is said by `keep`, `back` and `skip` down to the splice, which is the
    // struct of them: it can be made only once its keys are known to rise.)
    pub(crate) fn placed(
        &self,
        keep: usize,
        separator: &[u8],
        child: u32,
        back: &BranchPage,
        skip: usize,
    ) -> Option<Grown<BranchPage>>
        requires { TwoEnds self.now keep back.now skip }
        ensures { GrowsTo separator.now (around self.now keep (cell separator.now child) back.now skip) result }
    {
        if !is_key_len(separator.len()) {
            return None;
        }
        if !self.ends_below(keep, separator) {
            return None;
        }
        if !back.starts_above(skip, separator) {
            return None;
        }
        let cell = Short::branch_cell(separator, child);
        let body = Body {
            bytes: cell.as_slice(),
            kind: PhantomData,
        };
        Some(self.with_new(keep, body, back, skip))
    }
}
