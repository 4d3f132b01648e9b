ghost use Rattle.std.specs.Prelude.{◌≡◌, length};
ghost use Rattle.cache.specs.Held.{pages_in, Distinct, Sized};

use crate::slot::Slot;

mod calls;

pub const SLOTS: usize = 8;

// The pages that the cache holds, each in one slot of a fixed memory.
#[derive(Clone, Copy)]
pub struct Slots {
    all: [Slot; SLOTS],
    // how many times a slot was used
    uses: u64,
    ghost eight: { length all ≡ 8 },
    ghost distinct: { Distinct (pages_in all) },
    ghost sized: { Sized (pages_in all) },
}
