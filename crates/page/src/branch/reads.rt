ghost use Rattle.std.specs.Prelude.{◌≡◌};
ghost use Rattle.std.specs.Option.{option_map};
ghost use Rattle.tree.specs.Search.{picked};
ghost use Rattle.page.specs.Branches.{child_of, separator_of};
ghost use Rattle.page.specs.Views.{branch_node};

use crate::cell::BranchCell;
use crate::cell_page::CellPage;

impl CellPage<BranchCell> {
    // Child i, if there is one; child 0 is the leftmost one.
    pub fn child(&self, i: usize) -> Option<u32>
        ensures { result ≡ child_of i (branch_node self.now) }
    {
        let Some(before) = i.checked_sub(1) else {
            return Some(self.cells().leftmost());
        };
        Some(self.cells().cell(before)?.child())
    }

    // The separator after child i, if there is one.
    pub fn separator(&self, i: usize) -> Option<&[u8]>
        ensures { option_map (λ x. x.now) result ≡ separator_of i (branch_node self.now) }
    {
        self.cell_key(i)
    }

    // The number of the child that the key lies under: how many separators are at most the key.
    pub fn place(&self, key: &[u8]) -> usize
        ensures { result ≡ picked key.now (branch_node self.now).rest }
    {
        self.cells().place_above(key)
    }
}
