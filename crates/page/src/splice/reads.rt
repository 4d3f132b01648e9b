ghost use Rattle.std.specs.Prelude.{◌≡◌, ◌<◌, ◌≤◌, [], length, slice_index_or};
ghost use Rattle.page.specs.Layout.{cost};
ghost use Rattle.page.specs.Lists.{cells_in};

use crate::body::Body;
use crate::cell::Cell;
use crate::splice::Splice;

impl<'a, C: Cell> Splice<'a, C> {
    pub(crate) fn len(&self) -> usize
        ensures { result ≡ length (cells_in self.now) }
    {
        let back = self.back.len() - self.skip;
        match self.middle {
            Some(_) => self.keep + 1 + back,
            None => self.keep + back,
        }
    }

    pub(crate) fn get(&self, i: usize) -> Body<'a, C>
        requires { i < length (cells_in self.now) }
        ensures { result.bytes.now ≡ slice_index_or (cells_in self.now) i [] }
    {
        if i < self.keep {
            return self.front.get(i);
        }
        let rest = i - self.keep;
        match self.middle {
            Some(cell) => {
                if rest == 0 {
                    cell
                } else {
                    self.back.get(self.skip + (rest - 1))
                }
            }
            None => self.back.get(self.skip + rest),
        }
    }

    // The bytes that the list costs.
    pub(crate) fn cost(&self) -> usize
        ensures value { result ≡ cost (cells_in self.now) }
        ensures bound { result ≤ 1188 }
    {
        let ends = self.front.cost(0, self.keep) + self.back.cost(self.skip, self.back.len());
        match self.middle {
            Some(cell) => ends + 2 + cell.bytes.len(),
            None => ends,
        }
    }
}
