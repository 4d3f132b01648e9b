ghost use Rattle.std.specs.Prelude.{◌≡◌, ◌<◌, ◌≤◌, true, [], length, slice_get, slice_index_or};
ghost use Rattle.std.specs.List.{between};
ghost use Rattle.std.specs.Option.{option_map};
ghost use Rattle.page.specs.Layout.{cost, cells_of, left_of};
ghost use Rattle.page.specs.Places.{up_to};
ghost use Rattle.page.specs.Reading.{rising};

use crate::body::Body;
use crate::bytes::{count_of, edge, leftmost_of};
use crate::cell::Cell;
use crate::cells::Cells;
use cuts::key_less;
use std::marker::PhantomData;

impl<'a, C: Cell> Cells<'a, C> {
    pub(crate) fn len(&self) -> usize
        ensures { result ≡ length (cells_of self.now.page.now) }
    {
        count_of(self.page)
    }

    pub(crate) fn leftmost(&self) -> u32
        ensures { result ≡ left_of self.now.page.now }
    {
        leftmost_of(self.page)
    }

    pub(crate) fn get(&self, i: usize) -> Body<'a, C>
        requires { i < length (cells_of self.now.page.now) }
        ensures { result.bytes.now ≡ slice_index_or (cells_of self.now.page.now) i [] }
    {
        let page = self.page;
        let end = edge(page, i);
        let from = edge(page, i + 1);
        Body {
            bytes: &page[from..end],
            kind: PhantomData,
        }
    }

    // Cell i, if there is one.
    pub(crate) fn cell(&self, i: usize) -> Option<Body<'a, C>>
        ensures { option_map (λ b. b.bytes.now) result ≡ slice_get (cells_of self.now.page.now) i }
    {
        if i >= self.len() {
            return None;
        }
        Some(self.get(i))
    }

    pub(crate) fn key(&self, i: usize) -> &'a [u8]
        requires { i < length (cells_of self.now.page.now) }
        ensures { result.now ≡ C.rules.key (slice_index_or (cells_of self.now.page.now) i []) }
    {
        self.get(i).key()
    }

    // The bytes that the cells from i up to j cost.
    pub(crate) fn cost(&self, i: usize, j: usize) -> usize
        requires ordered { i ≤ j }
        requires within { j ≤ length (cells_of self.now.page.now) }
        ensures value { result ≡ cost (between i j (cells_of self.now.page.now)) }
        ensures bound { result ≤ 496 }
    {
        2 * (j - i) + edge(self.page, i) - edge(self.page, j)
    }

    // Whether each key is below the next. Each is looked up once, as the next comparison has the key of the one before.
    pub(crate) fn is_rising(&self) -> bool
        ensures { result ≡ rising C.rules.key (cells_of self.now.page.now) }
    {
        if self.len() == 0 {
            return true;
        }
        let mut before = self.key(0);
        for i in 1..self.len() {
            let key = self.key(i);
            if !key_less(before, key) {
                return false;
            }
            before = key;
        }
        true
    }

    // How many of the keys are at most the one sought: the place of the first greater one. The cells are no slice, of
    // which the library could find the partition point.
    pub(crate) fn place_above(&self, sought: &[u8]) -> usize
        requires { rising C.rules.key (cells_of self.now.page.now) ≡ true }
        ensures { result ≡ up_to C.rules.key sought.now (cells_of self.now.page.now) }
    {
        let mut low = 0;
        let mut high = self.len();
        while low < high {
            let mid = low + (high - low) / 2;
            if key_less(sought, self.key(mid)) {
                high = mid;
            } else {
                low = mid + 1;
            }
        }
        low
    }
}
