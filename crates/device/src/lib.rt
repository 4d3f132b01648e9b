// What a paged device is. A `Reader` has pages that can be read; a `Device` can be written and synced, too;
// a `PowerCycle` can lose its power and get it back.
//
// Each says by two ghost members what it means: `medium`, the pages as a caller may observe them
// (specs/Medium.antt), and `past`, the histories that may have led there (specs/History.antt). The contract of
// each call is one relation between these before and after it (specs/Calls.antt).
#![tactic(auto)]

ghost use Rattle.std.specs.Prelude.{◌≡◌};
ghost use Rattle.device.specs.Medium.{Medium, Whole};
ghost use Rattle.device.specs.History.{History, HappensOn, did_read, did_write, did_sync, power_returned};

mod fault;

pub use fault::DeviceFault;

// The bytes of a page.
pub const PAGE_SIZE: usize = 512;

pub type Page = [u8; PAGE_SIZE];

pub trait Reader {
    ghost medium: { Self → Medium };

    // The histories that may have led to this device, newest step first. One that keeps no account of its calls
    // allows every history. A value that no history leads to is no device, and promises nothing.
    ghost past: { Self → History → Type 0 };

    fn pages(&self) -> u32
        ensures { result ≡ (medium self.now).size };

    // Copies the page into the buffer. A refused read leaves zeros there.
    fn read(&mut self, page: u32, buffer: &mut Page) -> Result<(), DeviceFault>
        ensures { HappensOn past medium self.old (did_read page buffer.new result) self.new };

    ghost whole: { (d : Self) → Whole (medium d) };
}

pub trait Device: Reader {
    fn write(&mut self, page: u32, bytes: &Page) -> Result<(), DeviceFault>
        ensures { HappensOn Self.Reader.past Self.Reader.medium self.old (did_write page bytes.now result) self.new };

    fn sync(&mut self) -> Result<(), DeviceFault>
        ensures { HappensOn Self.Reader.past Self.Reader.medium self.old (did_sync result) self.new };
}

pub trait PowerCycle: Device {
    // Power returns. It may have failed before or not.
    fn power_return(&mut self)
        ensures { HappensOn Self.Reader.past Self.Reader.medium self.old power_returned self.new };
}
