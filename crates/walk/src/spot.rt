ghost use Rattle.std.specs.Prelude.{◌≡◌, ◌+◌, ◌≤◌, false, ◌∷◌, length, drop};
ghost use Rattle.std.specs.Option.{option_map};
ghost use Rattle.page.specs.Views.{HasChild, branch_node};
ghost use Rattle.paged.specs.Walk.{slots_of};
ghost use Rattle.walk.specs.Spots.{low_of, high_of, slot_of, low_at, high_at, bound_of};

use page::BranchPage;

// A page on the way down. Its keys or separators should be from `low` on and, if there is a `high`, below that.
#[derive(Clone, Copy)]
pub struct Spot<'a> {
    pub page: u32,
    pub low: &'a [u8],
    pub high: Option<&'a [u8]>,
    // the root may have fewer cells than any other page
    pub is_root: bool,
}

impl Spot<'_> {
    // Child i of the branch on this page, with the separators around it for bounds.
    pub(crate) fn child<'b>(&'b self, branch: &'b BranchPage, i: usize) -> Spot<'b>
        requires { HasChild branch.now i }
        ensures slot { drop i (slots_of (low_of self.now) (high_of self.now) (branch_node branch.now)) ≡ slot_of result ∷ drop (i + 1) (slots_of (low_of self.now) (high_of self.now) (branch_node branch.now)) }
        ensures below { result.is_root ≡ false }
    {
        Spot {
            page: branch.child(i).unwrap(),
            low: self.low_of(branch, i),
            high: self.high_of(branch, i),
            is_root: false,
        }
    }

    // The separator before child i, or the lower bound of the branch.
    fn low_of<'b>(&'b self, branch: &'b BranchPage, i: usize) -> &'b [u8]
        requires { HasChild branch.now i }
        ensures { result.now ≡ low_at (low_of self.now) (branch_node branch.now).rest i }
    {
        if i == 0 {
            return self.low;
        }
        branch.separator(i - 1).unwrap_or(self.low)
    }

    // The separator after child i, or the upper bound of the branch.
    fn high_of<'b>(&'b self, branch: &'b BranchPage, i: usize) -> Option<&'b [u8]>
        ensures { bound_of (option_map (λ x. x.now) result) ≡ high_at (high_of self.now) (branch_node branch.now).rest i }
    {
        branch.separator(i).or(self.high)
    }
}
