// How a simulated disk keeps one page.
ghost use Rattle.std.specs.Prelude.{◌≡◌, Bool, false, length};
ghost use Rattle.disks.specs.Kept.{Kept, Sound, blank, written, settled, restored};

use device::Page;

mod at_once;
mod at_sync;

pub use at_once::AtOnce;
pub use at_sync::AtSync;

pub trait Stored: Drop {
    // Whether a write is durable at once, or after the next sync.
    ghost at_once: { Bool };

    ghost kept: { Self → Kept };

    // A durable page of zeros.
    fn blank() -> Self
        ensures { kept result ≡ blank };

    // The bytes as they are now.
    fn bytes(&self) -> &Page
        ensures { result.now ≡ (kept self.now).bytes };

    fn write(&mut self, bytes: &Page)
        ensures { kept self.new ≡ written at_once bytes.now (kept self.old) };

    // Makes the page durable.
    fn settle(&mut self)
        ensures settles { kept self.new ≡ settled (kept self.old) }
        ensures same { (kept self.old).volatile ≡ false → self.new ≡ self.old };

    // Goes back to the durable bytes.
    fn restore(&mut self)
        ensures restores { kept self.new ≡ restored (kept self.old) }
        ensures same { (kept self.old).volatile ≡ false → self.new ≡ self.old };

    ghost full: { (s : Self) → length (kept s).bytes ≡ 512 };

    ghost sound: { (s : Self) → Sound at_once (kept s) };
}
