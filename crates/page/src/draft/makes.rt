ghost use Rattle.std.specs.Prelude.{◌≡◌, ◌+◌, ◌≤◌, true, [], ◌∷◌, ◌++◌, length};
ghost use Rattle.page.specs.Layout.{bodies, cost, cells_of, left_of};
ghost use Rattle.page.specs.Reading.{rising};

use crate::body::Body;
use crate::bytes::{count_of, put, read16, write16};
use crate::cell::{Cell, kind_byte};
use crate::cell_page::CellPage;
use crate::draft::Draft;
use checksum::seal;
use device::PAGE_SIZE;
use std::marker::PhantomData;

impl<C: Cell> Draft<C> {
    // The page of no cells.
    pub(crate) fn new(leftmost: u32) -> Self
        ensures left { left_of result.bytes ≡ leftmost }
        ensures cells { cells_of result.bytes ≡ [] }
    {
        let mut bytes = [0; PAGE_SIZE];
        bytes[0] = kind_byte::<C>();
        write16(&mut bytes, 4, PAGE_SIZE);
        put(&mut bytes, 8, &leftmost.to_le_bytes());
        Draft {
            bytes,
            kind: PhantomData,
        }
    }

    // Where the lowest cell begins.
    fn lowest(&self) -> usize
        ensures { result + length (bodies (cells_of self.now.bytes)) ≡ 512 }
    {
        read16(&self.bytes, 4)
    }

    // One more cell, for which there is room.
    pub(crate) fn push(&mut self, body: Body<'_, C>)
        requires { cost (cells_of self.old.bytes) + 2 + length body.bytes.now ≤ 496 }
        ensures left { left_of self.new.bytes ≡ left_of self.old.bytes }
        ensures cells { cells_of self.new.bytes ≡ cells_of self.old.bytes ++ body.entry.bytes.now ∷ [] }
    {
        let n = count_of(&self.bytes);
        let at = self.lowest() - body.bytes.len();
        put(&mut self.bytes, at, body.bytes);
        write16(&mut self.bytes, 16 + 2 * n, at);
        write16(&mut self.bytes, 4, at);
        write16(&mut self.bytes, 2, n + 1);
    }

    // The page, with its checksum, when all cells are there.
    pub(crate) fn finish(self) -> CellPage<C>
        requires rises { rising C.rules.key (cells_of self.bytes) ≡ true }
        requires leftmost { C.rules.leftmost (left_of self.bytes) ≡ true }
        ensures left { left_of result.bytes ≡ left_of self.bytes }
        ensures cells { cells_of result.bytes ≡ cells_of self.bytes }
    {
        let mut bytes = self.bytes;
        seal(&mut bytes);
        CellPage {
            bytes,
            kind: PhantomData,
        }
    }
}
