ghost use Rattle.page.specs.Growths.{PutsChild, InsertsChild, MergesChildren, ReplacesChildren, MakesRoot, JoinsBranches};

use crate::body::Body;
use crate::branch::BranchPage;
use crate::cell::{BranchCell, is_key_len};
use crate::cell_page::CellPage;
use crate::draft::Draft;
use crate::grown::Grown;
use crate::short::Short;
use std::marker::PhantomData;

impl CellPage<BranchCell> {
    // The branch with another page for child i; none, if it has no such child.
    pub fn with_child(&self, i: usize, page: u32) -> Option<BranchPage>
        ensures { PutsChild self.now i page result }
    {
        if i > self.len() {
            return None;
        }
        if i == 0 {
            return Some(self.with_first(page));
        }
        Some(self.with_later(i - 1, page))
    }

    // The branch with two pages and the separator between them for child i: one page, or two; none, if it has no
    // such child, or that cannot be a separator there. (The three stand as they do in the branch; a struct of them would be
    // made at each call only to be taken apart.)
    pub fn insert(
        &self,
        i: usize,
        left: u32,
        separator: &[u8],
        right: u32,
    ) -> Option<Grown<BranchPage>>
        ensures { InsertsChild self.now i left separator.now right result }
    {
        let base = self.with_child(i, left)?;
        base.placed(i, separator, right, &base, i)
    }

    // The branch with one page for child i and the next; none, if there is no next.
    pub fn merge(&self, i: usize, page: u32) -> Option<BranchPage>
        ensures { MergesChildren self.now i page result }
    {
        if i >= self.len() {
            return None;
        }
        let base = self.with_child(i, page)?;
        Some(base.without(i))
    }

    // The branch with two pages and another separator between them for child i and the next: one page, or two;
    // none, if there is no next, or that cannot be a separator there.
    pub fn replace(
        &self,
        i: usize,
        left: u32,
        separator: &[u8],
        right: u32,
    ) -> Option<Grown<BranchPage>>
        ensures { ReplacesChildren self.now i left separator.now right result }
    {
        if i >= self.len() {
            return None;
        }
        let base = self.with_child(i, left)?;
        base.placed(i, separator, right, &base, i + 1)
    }

    // The root above two pages; none, if the separator has not 1 to 64 bytes.
    pub fn root(left: u32, separator: &[u8], right: u32) -> Option<BranchPage>
        ensures { MakesRoot left separator.now right result }
    {
        if !is_key_len(separator.len()) {
            return None;
        }
        let cell = Short::branch_cell(separator, right);
        let mut draft = Draft::<BranchCell>::new(left);
        draft.push(Body {
            bytes: cell.as_slice(),
            kind: PhantomData,
        });
        Some(draft.finish())
    }

    // Two branches as one, with the separator between them: one page, or two; none, if neither is underfull, or that
    // cannot be a separator there.
    pub fn join(&self, separator: &[u8], right: &BranchPage) -> Option<Grown<BranchPage>>
        ensures { JoinsBranches self.now separator.now right.now result }
    {
        if !self.one_is_light(right) {
            return None;
        }
        let cells = right.cells();
        self.placed(self.len(), separator, cells.leftmost(), right, 0)
    }
}
