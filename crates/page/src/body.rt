ghost use Rattle.std.specs.Prelude.{◌≡◌, true, ⊤};

use crate::cell::Cell;
use std::alloc::AllocError;
use std::marker::PhantomData;

mod reads;

// The bytes of one good cell.
pub(crate) struct Body<'a, C: Cell> {
    pub(crate) bytes: &'a [u8],
    pub(crate) kind: PhantomData<C>,
    ghost good: { C.rules.good bytes.now ≡ true },
}

// Written out: for a struct with a ghost field and a parameter the build derives no `Clone`.
impl<C: Cell> Clone for Body<'_, C> {
    ghost is_clone = { λ x y. y ≡ x };

    ghost is_infallible = { λ _. ⊤ };

    fn clone(&self) -> Result<Self, AllocError> {
        Ok(*self)
    }
}

impl<C: Cell> Copy for Body<'_, C> {}
