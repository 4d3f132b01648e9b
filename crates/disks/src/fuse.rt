ghost use Rattle.std.specs.Prelude.{◌≡◌};
ghost use Rattle.disks.specs.Fuses.{fresh, powered, lasts, counted, renewed};

use device::DeviceFault;

// When power fails: the `limit`-th call is the first that is refused, none if `limit` is 0. The rules by which a disk
// is made say so; an option here would need an invariant that no limit is 0, and its proof wherever one is made.
#[derive(Clone, Copy)]
pub struct Fuse {
    limit: u64,
    // the calls since the device was made, or since power last returned
    calls: u64,
}

impl Fuse {
    pub fn new(limit: u64) -> Self
        ensures { result ≡ fresh limit }
    {
        Fuse { limit, calls: 0 }
    }

    pub fn is_on(&self) -> bool
        ensures { result ≡ powered self.now }
    {
        self.limit == 0 || self.calls < self.limit
    }

    pub fn calls(&self) -> u64
        ensures { result ≡ self.now.calls }
    {
        self.calls
    }

    // Counts a call, and refuses it if power fails.
    pub fn call(&mut self) -> Result<(), DeviceFault>
        ensures counts { self.new ≡ counted self.old }
        ensures answers { result ≡ lasts (counted self.old) }
    {
        if self.is_on() {
            self.calls = self.calls.saturating_add(1);
        }
        if self.is_on() {
            Ok(())
        } else {
            Err(DeviceFault::Off)
        }
    }

    pub fn renew(&mut self)
        ensures { self.new ≡ renewed self.old }
    {
        self.calls = 0;
    }
}
