ghost use Rattle.std.specs.Prelude.{◌≡◌, true, ⊤};
ghost use Rattle.page.specs.Layout.{Laid, cells_of};
ghost use Rattle.page.specs.Reading.{every};

use crate::cell::Cell;
use device::Page;
use std::alloc::AllocError;
use std::marker::PhantomData;

mod reads;
pub(crate) mod tests;

// The cells of a page that is laid out as that of its cells, with whatever checksum.
pub(crate) struct Cells<'a, C: Cell> {
    pub(crate) page: &'a Page,
    pub(crate) kind: PhantomData<C>,
    ghost laid: { Laid C.rules.kind page.now },
    ghost goods: { every C.rules.good (cells_of page.now) ≡ true },
}

// Written out: for a struct with a ghost field and a parameter the build derives no `Clone`.
impl<C: Cell> Clone for Cells<'_, C> {
    ghost is_clone = { λ x y. y ≡ x };

    ghost is_infallible = { λ _. ⊤ };

    fn clone(&self) -> Result<Self, AllocError> {
        Ok(*self)
    }
}

impl<C: Cell> Copy for Cells<'_, C> {}
