ghost use Rattle.std.specs.Prelude.{◌≡◌};
ghost use Rattle.cache.specs.Held.{has};

use crate::copy::Copied;

// Room for one page.
#[derive(Clone, Copy)]
pub struct Slot {
    pub copy: Option<Copied>,
    // the count of uses when it was used last
    pub used: u64,
}

impl Slot {
    pub const EMPTY: Slot = Slot {
        copy: None,
        used: 0,
    };

    pub fn has(&self, page: u32) -> bool
        ensures { result ≡ has self.now.copy page }
    {
        self.copy.is_some_and(|copy| copy.page == page)
    }
}
