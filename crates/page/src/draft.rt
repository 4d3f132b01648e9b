ghost use Rattle.std.specs.Prelude.{◌≡◌, true};
ghost use Rattle.page.specs.Layout.{Laid, cells_of};
ghost use Rattle.page.specs.Reading.{every};

use crate::cell::Cell;
use device::Page;
use std::marker::PhantomData;

mod makes;

// A page that is being built: laid out as it will be, and not sealed yet.
#[derive(Drop)]
pub(crate) struct Draft<C: Cell> {
    bytes: Page,
    kind: PhantomData<C>,
    ghost laid: { Laid C.rules.kind bytes },
    ghost goods: { every C.rules.good (cells_of bytes) ≡ true },
}
