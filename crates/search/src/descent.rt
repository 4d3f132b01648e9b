// The ways down: each step loads a page. What a search finds from a page on is what the same search finds in the tree
// as a value, for every tree that stands there, sound or not (specs/Following.antt).
//
// Two functions, and not one for both: the way to a key ends under one child, the way to the next key may go on under
// the next child, and a text that asks at each step which of the two it is would be longer than they are.
ghost use Rattle.std.specs.Prelude.{◌≡◌, ◌≤◌};
ghost use Rattle.device.specs.Looking.{On};
ghost use Rattle.tree.specs.Maps.{first_above};
ghost use Rattle.page.specs.Views.{HasChild, leaf_pairs, branch_node};
ghost use Rattle.search.specs.Finding.{pair_with};
ghost use Rattle.search.specs.Following.{Descends, InLeaf, find_pair, find_next, tree_under};

use crate::{Place, Tree};
use device::Reader;
use page::{BranchPage, LeafPage, PageFault};

// The place of the pair with this key in a leaf.
fn find_in(leaf: LeafPage, key: &[u8]) -> Option<Place>
    ensures { InLeaf leaf (pair_with key.now (leaf_pairs leaf)) result }
{
    let cell = leaf.find(key)?;
    Some(Place { leaf, cell })
}

// The place of the first pair of a leaf with a greater key.
fn after_in(leaf: LeafPage, key: &[u8]) -> Option<Place>
    ensures { InLeaf leaf (first_above key.now (leaf_pairs leaf)) result }
{
    let cell = leaf.above(key);
    (cell < leaf.len()).then_some(Place { leaf, cell })
}

impl Tree {
    // The tree under child i of the branch on its root.
    fn under(self, branch: &BranchPage, i: usize) -> Tree
        requires tall { 1 ≤ self.height }
        requires within { HasChild branch.now i }
        ensures { result ≡ tree_under self i (branch_node branch.now) }
    {
        Tree {
            root: branch.child(i).unwrap(),
            height: self.height - 1,
        }
    }

    // Under the child that the key lies under, and so on down to a leaf.
    #[tactic(auto, using(tree::proofs::ByPlace::picked_within))]
    pub(crate) fn find_down<R: Reader>(
        self,
        reader: &mut R,
        key: &[u8],
    ) -> Result<Option<Place>, PageFault>
        ensures { On R.Reader reader.old reader.new (λ P m Q n. Descends P m Q n self (find_pair key.now) result) }
    {
        if self.height == 0 {
            let leaf = LeafPage::load(reader, self.root)?;
            return Ok(find_in(leaf, key));
        }
        let branch = BranchPage::load(reader, self.root)?;
        let child = self.under(&branch, branch.place(key));
        child.find_down(reader, key)
    }

    // Under the child that the key lies under; if there is no such pair there, under the next child.
    #[tactic(auto, using(tree::proofs::ByPlace::picked_within))]
    pub(crate) fn after_down<R: Reader>(
        self,
        reader: &mut R,
        key: &[u8],
    ) -> Result<Option<Place>, PageFault>
        ensures { On R.Reader reader.old reader.new (λ P m Q n. Descends P m Q n self (find_next key.now) result) }
    {
        if self.height == 0 {
            let leaf = LeafPage::load(reader, self.root)?;
            return Ok(after_in(leaf, key));
        }
        let branch = BranchPage::load(reader, self.root)?;
        let i = branch.place(key);
        if let Some(place) = self.under(&branch, i).after_down(reader, key)? {
            return Ok(Some(place));
        }
        if i == branch.len() {
            return Ok(None);
        }
        self.under(&branch, i + 1).after_down(reader, key)
    }
}
