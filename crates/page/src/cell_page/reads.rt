ghost use Rattle.std.specs.Prelude.{◌≡◌, true, ◌||◌, map, length, nat_lt, slice_get};
ghost use Rattle.std.specs.Option.{option_map};
ghost use Rattle.device.specs.Looking.{On};
ghost use Rattle.cuts.specs.Cuts.{total};
ghost use Rattle.cuts.specs.Sizes.{quarter};
ghost use Rattle.page.specs.Layout.{cells_of};
ghost use Rattle.page.specs.Loads.{ReadsPage, Loads};
ghost use Rattle.page.specs.Reading.{rising};

use crate::cell::Cell;
use crate::cell_page::CellPage;
use crate::cells::Cells;
use crate::fault::{Cause, Damage, PageFault};
use checksum::is_sealed;
use device::{PAGE_SIZE, Page, Reader};
use std::marker::PhantomData;

// What a page other than the root costs at least: a quarter of what a page holds.
const QUARTER: usize = 124;

impl<C: Cell> CellPage<C> {
    // The page of this kind that the bytes are, or what is wrong with them first.
    pub fn read(bytes: &Page) -> Result<Self, Cause>
        ensures { ReadsPage C.rules (λ p. p.bytes) bytes.now result }
    {
        if !is_sealed(bytes) {
            return Err(Cause::Checksum);
        }
        Cells::<C>::read(bytes)?;
        Ok(CellPage {
            bytes: *bytes,
            kind: PhantomData,
        })
    }

    // The page of this kind on a page of the reader, tested before it is used.
    pub fn load<R: Reader>(reader: &mut R, page: u32) -> Result<Self, PageFault>
        ensures { On R.Reader reader.old reader.new (λ P m Q n. Loads C.rules (λ p. p.bytes) P m page result Q n) }
    {
        let mut buffer = [0; PAGE_SIZE];
        reader.read(page, &mut buffer)?;
        Ok(CellPage::read(&buffer).map_err(|cause| Damage { page, cause })?)
    }

    pub fn bytes(&self) -> &Page
        ensures { result.now ≡ self.now.bytes }
    {
        &self.bytes
    }

    pub(crate) fn cells(&self) -> Cells<'_, C>
        ensures same { result.page.now ≡ self.now.bytes }
        ensures rises { rising C.rules.key (cells_of result.page.now) ≡ true }
    {
        Cells {
            page: &self.bytes,
            kind: PhantomData,
        }
    }

    // How many cells it has: the pairs of a leaf, and one less than the children of a branch.
    pub fn len(&self) -> usize
        ensures { result ≡ length (map C.item (cells_of self.now.bytes)) }
    {
        self.cells().len()
    }

    // The key of cell i, if there is one.
    pub fn cell_key(&self, i: usize) -> Option<&[u8]>
        ensures { option_map (λ x. x.now) result ≡ slice_get (map C.rules.key (cells_of self.now.bytes)) i }
    {
        Some(self.cells().cell(i)?.key())
    }

    // The bytes that its cells cost.
    pub fn cost(&self) -> usize
        ensures { result ≡ total C.item_cost (map C.item (cells_of self.now.bytes)) }
    {
        let cells = self.cells();
        cells.cost(0, cells.len())
    }

    // Whether it is underfull: its cells cost less than a quarter of what a page holds.
    pub fn is_light(&self) -> bool
        ensures { result ≡ nat_lt (total C.item_cost (map C.item (cells_of self.now.bytes))) quarter }
    {
        self.cost() < QUARTER
    }

    // Whether one of two pages is underfull, as one of two that are joined has to be.
    pub(crate) fn one_is_light(&self, other: &Self) -> bool
        ensures { result ≡ (nat_lt (total C.item_cost (map C.item (cells_of self.now.bytes))) quarter || nat_lt (total C.item_cost (map C.item (cells_of other.now.bytes))) quarter) }
    {
        self.is_light() || other.is_light()
    }
}
