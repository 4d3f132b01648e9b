ghost use Rattle.std.specs.Prelude.{◌≡◌, ◌+◌, ◌<◌, ◌++◌, length, take, drop};
ghost use Rattle.page.specs.Layout.{cells_of, left_of};
ghost use Rattle.page.specs.Lists.{cells_in};
ghost use Rattle.page.specs.Splices.{loose, parts, Spliced};

use crate::body::Body;
use crate::cell::Cell;
use crate::cell_page::CellPage;
use crate::splice::Splice;

impl<C: Cell> CellPage<C> {
    // The first cells of this page, perhaps a loose one, and the last cells of a page.
    pub(crate) fn splice<'a>(
        &'a self,
        keep: usize,
        middle: Option<Body<'a, C>>,
        back: &'a Self,
        skip: usize,
    ) -> Splice<'a, C>
        requires { Spliced C.rules self.now.bytes keep (loose middle) back.now.bytes skip }
        ensures { cells_in result ≡ parts self.now.bytes keep (loose middle.entry) back.now.bytes skip }
    {
        Splice {
            front: self.cells(),
            keep,
            middle,
            back: back.cells(),
            skip,
        }
    }

    // All cells but one.
    pub(crate) fn without(&self, i: usize) -> Self
        requires { i < length (cells_of self.now.bytes) }
        ensures left { left_of result.bytes ≡ left_of self.now.bytes }
        ensures cells { cells_of result.bytes ≡ take i (cells_of self.now.bytes) ++ drop (i + 1) (cells_of self.now.bytes) }
    {
        let leftmost = self.cells().leftmost();
        self.splice(i, None, self, i + 1).whole(leftmost)
    }
}
