ghost use Rattle.page.specs.Splices.{loose, Spliced};

use crate::body::Body;
use crate::cell::Cell;
use crate::cells::Cells;

mod builds;
mod reads;

// What a page has for cells and their offsets.
pub(crate) const USABLE: usize = 496;

// A list of cells that lies in parts, as an edit leaves it: the first cells of one page, perhaps a loose cell, and
// the last cells of a page. Their keys rise.
#[derive(Drop)]
pub(crate) struct Splice<'a, C: Cell> {
    pub front: Cells<'a, C>,
    // how many of its cells come first
    pub keep: usize,
    pub middle: Option<Body<'a, C>>,
    pub back: Cells<'a, C>,
    // from which of its cells on they come last
    pub skip: usize,
    ghost spliced: { Spliced C.rules front.page.now keep (loose middle) back.page.now skip },
}
