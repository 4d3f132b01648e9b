ghost use Rattle.std.specs.Prelude.{◌≡◌, ◌+◌, ◌-◌, ◌<◌, ◌≤◌, true, [], ◌∷◌, ◌++◌, map, length, take, drop, slice_index_or};
ghost use Rattle.cuts.specs.Cuts.{fair};
ghost use Rattle.cuts.specs.Keys.{separator};
ghost use Rattle.cuts.specs.Nodes.{pair_cost};
ghost use Rattle.tree.specs.Maps.{Rising};
ghost use Rattle.page.specs.Growths.{leaf_grown, fitted};
ghost use Rattle.page.specs.Kinds.{leaf_key, pair_of};
ghost use Rattle.page.specs.Layout.{cost, cells_of};
ghost use Rattle.page.specs.Lists.{cells_in};
ghost use Rattle.page.specs.Reading.{rising};
ghost use Rattle.page.specs.Shorts.{held};
ghost use Rattle.page.specs.Splices.{CutsLeaf};
ghost use Rattle.page.specs.Views.{leaf_pairs};

use crate::body::Body;
use crate::cell::LeafCell;
use crate::cell_page::CellPage;
use crate::grown::Grown;
use crate::leaf::LeafPage;
use crate::short::Short;
use crate::splice::{Splice, USABLE};
use cuts::{key_less, separator_len};

impl Splice<'_, LeafCell> {
    // Where an overfull list is cut: both parts fit a page, and have cells.
    fn leaf_cut(&self) -> usize
        requires overfull { 496 < cost (cells_in self.now) }
        requires few { cost (cells_in self.now) ≤ 692 }
        ensures value { result ≡ fair pair_cost 0 (map pair_of (cells_in self.now)) }
        ensures parts { CutsLeaf (cells_in self.now) result }
    {
        self.fair_cut()
    }

    // The separator of the two parts.
    fn separator(&self, at: usize) -> Short
        requires some { 1 ≤ at }
        requires within { at < length (cells_in self.now) }
        ensures { held result ≡ separator (leaf_key (slice_index_or (cells_in self.now) (at - 1) [])) (leaf_key (slice_index_or (cells_in self.now) at [])) }
    {
        let before = self.get(at - 1).key();
        let after = self.get(at).key();
        let mut separator = Short::new();
        separator.push(&after[0..separator_len(before, after)]);
        separator
    }

    // The cells as one leaf, or as two where they are too many for one.
    pub(crate) fn leaves(&self) -> Grown<LeafPage>
        requires { cost (cells_in self.now) ≤ 692 }
        ensures { leaf_grown result ≡ fitted (map pair_of (cells_in self.now)) }
    {
        if self.cost() <= USABLE {
            return Grown::One(self.whole(0));
        }
        let at = self.leaf_cut();
        Grown::Two(
            self.part(0, at, 0),
            self.separator(at),
            self.part(at, self.len(), 0),
        )
    }
}

impl CellPage<LeafCell> {
    // The first cells of a leaf, a new one, and the last cells.
    pub(crate) fn with_cell<'a>(
        &'a self,
        keep: usize,
        cell: Body<'a, LeafCell>,
        skip: usize,
    ) -> Grown<LeafPage>
        requires keep { keep ≤ skip }
        requires skip { skip ≤ length (leaf_pairs self.now) }
        requires rises { Rising (take keep (leaf_pairs self.now) ++ (pair_of cell.bytes.now ∷ drop skip (leaf_pairs self.now))) }
        ensures { leaf_grown result ≡ fitted (take keep (leaf_pairs self.now) ++ (pair_of cell.entry.bytes.now ∷ drop skip (leaf_pairs self.now))) }
    {
        self.splice(keep, Some(cell), self, skip).leaves()
    }

    // Whether the keys still rise where the cells of another leaf follow.
    pub(crate) fn precedes(&self, right: &LeafPage) -> bool
        ensures { result ≡ rising leaf_key (cells_of self.now.bytes ++ cells_of right.now.bytes) }
    {
        let left = self.cells();
        let right = right.cells();
        if left.len() == 0 {
            return true;
        }
        if right.len() == 0 {
            return true;
        }
        key_less(left.key(left.len() - 1), right.key(0))
    }

    // The cells of two leaves.
    pub(crate) fn with_all<'a>(&'a self, right: &'a LeafPage) -> Grown<LeafPage>
        requires few { cost (cells_of self.now.bytes) + cost (cells_of right.now.bytes) ≤ 692 }
        requires rises { rising leaf_key (cells_of self.now.bytes ++ cells_of right.now.bytes) ≡ true }
        ensures { leaf_grown result ≡ fitted (leaf_pairs self.now ++ leaf_pairs right.now) }
    {
        self.splice(self.len(), None, right, 0).leaves()
    }
}
