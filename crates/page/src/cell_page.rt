ghost use Rattle.std.specs.Prelude.{◌≡◌, true, ⊤};
ghost use Rattle.page.specs.Reading.{sound};

use crate::cell::Cell;
use device::Page;
use std::alloc::AllocError;
use std::marker::PhantomData;

mod edits;
mod reads;

// A page of cells of one kind: its bytes are a page that reading accepts, with its checksum.
pub struct CellPage<C: Cell> {
    pub(crate) bytes: Page,
    pub(crate) kind: PhantomData<C>,
    ghost sound: { sound C.rules bytes ≡ true },
}

// Written out: for a struct with a ghost field and a parameter the build derives no `Clone`.
impl<C: Cell> Clone for CellPage<C> {
    ghost is_clone = { λ x y. y ≡ x };

    ghost is_infallible = { λ _. ⊤ };

    fn clone(&self) -> Result<Self, AllocError> {
        Ok(*self)
    }
}

impl<C: Cell> Copy for CellPage<C> {}
