ghost use Rattle.std.specs.Prelude.{◌≡◌, false, length};

use crate::stored::Stored;
use device::{PAGE_SIZE, Page};

// A page whose writes are durable after the next sync. The durable bytes are a copy and a mark, and no option of a copy: an option
// would have a page's bytes saved before the first write to it, and all bytes of the option cleared after, which takes half as
// long again or more for a page that is written and made durable.
#[derive(Clone, Copy)]
pub struct AtSync {
    bytes: Page,
    // as it was when it was last durable
    durable: Page,
    // written to since
    changed: bool,
    ghost full: { length bytes ≡ 512 },
    ghost durable_full: { length durable ≡ 512 },
    ghost unchanged: { changed ≡ false → durable ≡ bytes },
}

impl Stored for AtSync {
    ghost at_once = { false };

    ghost kept = { λ s. record { bytes = s.bytes; durable = s.durable; volatile = s.changed } };

    ghost full = { λ s. s.full };

    ghost sound = { λ s. record { agrees = s.unchanged; never = λ e. Prim.cc } };

    fn blank() -> Self {
        AtSync {
            bytes: [0; PAGE_SIZE],
            durable: [0; PAGE_SIZE],
            changed: false,
        }
    }

    fn bytes(&self) -> &Page {
        &self.bytes
    }

    fn write(&mut self, bytes: &Page) {
        self.bytes = *bytes;
        self.changed = true;
    }

    fn settle(&mut self) {
        if self.changed {
            self.durable = self.bytes;
            self.changed = false;
        }
    }

    fn restore(&mut self) {
        if self.changed {
            self.bytes = self.durable;
            self.changed = false;
        }
    }
}
