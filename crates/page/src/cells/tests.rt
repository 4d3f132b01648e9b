// The test of a page: one pass over its cells, and none over its other bytes but for the checksum and the zeros.
ghost use Rattle.std.specs.Prelude.{◌≡◌, ℕ, ◌+◌, ◌*◌, ◌<◌, ◌≤◌, true, false, length, IfOk, Decides, MatchBool, slice_index};
ghost use Rattle.std.specs.Result.{result_err};
ghost use Rattle.page.specs.Kinds.{Rules};
ghost use Rattle.page.specs.Layout.{cells_of, edge_at};
ghost use Rattle.page.specs.Packed.{Packed, Headed};
ghost use Rattle.page.specs.Reading.{layout, shape_fault};
ghost use Rattle.checksum.specs.Bytes.{word16};

use crate::bytes::{count_of, edge, leftmost_of, read16};
use crate::cell::{Cell, kind_byte};
use crate::cells::Cells;
use crate::fault::Cause;
use device::Page;
use std::marker::PhantomData;

// Whether the bytes from one place up to another are zero.
fn is_zero(page: &Page, from: usize, to: usize) -> bool
    requires ordered { from ≤ to }
    requires within { to ≤ 512 }
    ensures { Decides result ((k : ℕ) → from ≤ k → k < to → slice_index page.now k ≡ 0) }
{
    page[from..to].iter().all(|b| *b == 0)
}

// Whether the cells are good, and lie one below the other from the end of the page.
fn is_packed<C: Cell>(page: &Page, n: usize) -> bool
    requires count { n ≡ length (cells_of page.now) }
    requires few { n ≤ 248 }
    ensures { MatchBool result (Packed C.rules page.now n) (layout C.rules page.now ≡ false) }
{
    for i in 0..n {
        let end = edge(page, i);
        let from = edge(page, i + 1);
        if from > end {
            return false;
        }
        if from < 16 + 2 * n {
            return false;
        }
        if !C::is_good(&page[from..end]) {
            return false;
        }
    }
    true
}

// Whether the header says what the cells say.
fn has_header<C: Cell>(page: &Page, lowest: usize) -> bool
    ensures { Decides result (Headed C.rules.kind page.now lowest) }
{
    page[0] == kind_byte::<C>()
        && page[1] == 0
        && read16(page, 4) == lowest
        && page[6] == 0
        && page[7] == 0
}

// Whether the bytes are the page of the cells that they say, with whatever checksum.
fn is_laid_out<C: Cell>(page: &Page) -> bool
    ensures { result ≡ layout C.rules page.now }
{
    let n = count_of(page);
    if n > 248 {
        return false;
    }
    if !is_packed::<C>(page, n) {
        return false;
    }
    let lowest = edge(page, n);
    if !has_header::<C>(page, lowest) {
        return false;
    }
    if !is_zero(page, 16 + 2 * n, lowest) {
        return false;
    }
    C::allows_leftmost(leftmost_of(page))
}

impl<'a, C: Cell> Cells<'a, C> {
    // The cells of a page of this kind, or what is wrong with it first, its checksum left out.
    pub(crate) fn read(page: &'a Page) -> Result<Self, Cause>
        ensures fault { result_err result ≡ shape_fault C.rules page.now }
        ensures same { IfOk result (λ cells. cells.page.now ≡ page.now) }
    {
        if page[0] != kind_byte::<C>() {
            return Err(Cause::Kind);
        }
        if !is_laid_out::<C>(page) {
            return Err(Cause::Layout);
        }
        let cells = Cells {
            page,
            kind: PhantomData,
        };
        if !cells.is_rising() {
            return Err(Cause::Order);
        }
        Ok(cells)
    }
}
