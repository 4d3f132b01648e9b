ghost use Rattle.std.specs.Prelude.{◌≡◌, true, false, length, refl};

use crate::stored::Stored;
use device::{PAGE_SIZE, Page};

// A page whose writes are durable at once.
#[derive(Clone, Copy)]
pub struct AtOnce {
    bytes: Page,
    ghost full: { length bytes ≡ 512 },
}

impl Stored for AtOnce {
    ghost at_once = { true };

    ghost kept = { λ s. record { bytes = s.bytes; durable = s.bytes; volatile = false } };

    ghost full = { λ s. s.full };

    ghost sound = { λ s. record { agrees = λ _. refl; never = λ _. refl } };

    fn blank() -> Self {
        AtOnce {
            bytes: [0; PAGE_SIZE],
        }
    }

    fn bytes(&self) -> &Page {
        &self.bytes
    }

    fn write(&mut self, bytes: &Page) {
        self.bytes = *bytes;
    }

    fn settle(&mut self) {}

    fn restore(&mut self) {}
}
