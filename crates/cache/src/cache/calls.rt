ghost use Rattle.std.specs.Prelude.{◌≡◌, ◌<◌, false, [], Ok, Err};
ghost use Rattle.device.specs.History.{History, did_read, did_write, did_sync, power_returned};
ghost use Rattle.cache.specs.Cached.{pages_of, cache_medium, cache_past, HappensTo};
ghost use Rattle.cache.specs.Held.{holds};
ghost use Rattle.cache.specs.Calls.{CacheReads, CacheWrites, Syncing, CacheReturns, Makes};
ghost use Rattle.std.proofs.Common.{rules};

use crate::cache::Cache;
use crate::cache::steps::read_page;
use crate::slots::Slots;
use device::{Device, DeviceFault, PAGE_SIZE, Page, PowerCycle, Reader};

impl<D: Device> Cache<D> {
    // An empty cache over a device. It reads page 0 once, to learn whether the device is off.
    pub fn new(below: D) -> Self
        ensures makes { Makes D.Reader below result }
        ensures past { (h : History) → D.Reader.past below h → cache_past D.Reader result [] }
    {
        let mut cache = Cache {
            below,
            slots: Slots::new(),
            off: false,
        };
        let _ = cache.ask(|below| read_page(below, 0));
        cache
    }

    // The device below.
    pub fn below(&self) -> &D
        ensures { result.now ≡ self.now.below }
    {
        &self.below
    }

    pub fn is_held(&self, page: u32) -> bool
        ensures { result ≡ holds (pages_of self.now) page }
    {
        self.slots.find(page).is_some()
    }
}

impl<D: Device> Reader for Cache<D> {
    ghost medium = { cache_medium D.Reader };

    ghost past = { cache_past D.Reader };

    ghost whole = { Prim.search rules };

    fn pages(&self) -> u32 {
        self.below.pages()
    }

    fn read(&mut self, page: u32, buffer: &mut Page) -> Result<(), DeviceFault>
        ensures meaning { HappensTo D.Reader self.old (did_read page buffer.new result) self.new }
        ensures exact { CacheReads D.Reader self.old page buffer.new result self.new }
    {
        *buffer = [0; PAGE_SIZE];
        self.admit(page)?;
        let Some(place) = self.slots.find(page) else {
            let bytes = self.fetch(page)?;
            *buffer = bytes;
            return Ok(());
        };
        self.slots.show(place, buffer);
        Ok(())
    }
}

impl<D: Device> Device for Cache<D> {
    fn write(&mut self, page: u32, bytes: &Page) -> Result<(), DeviceFault>
        ensures meaning { HappensTo D.Reader self.old (did_write page bytes.now result) self.new }
        ensures exact { CacheWrites D.Reader self.old page bytes.now result self.new }
    {
        self.admit(page)?;
        self.store(page, bytes)
    }

    fn sync(&mut self) -> Result<(), DeviceFault>
        ensures meaning { HappensTo D.Reader self.old (did_sync result) self.new }
        ensures exact { Syncing D.Reader self.old.off self.old result self.new }
    {
        if self.off {
            return Err(DeviceFault::Off);
        }
        self.settle()
    }
}

impl<D: PowerCycle> PowerCycle for Cache<D> {
    fn power_return(&mut self)
        ensures meaning { HappensTo D.Reader self.old power_returned self.new }
        ensures exact { CacheReturns D.Reader self.old self.new }
    {
        self.below.power_return();
        self.slots = Slots::new();
        self.off = false;
    }
}
