ghost use Rattle.std.specs.Prelude.{◌≡◌, true, false, ◌||◌, None, Ok, Err};
ghost use Rattle.std.specs.Fn.{FnOnceReturnsAtMut};
ghost use Rattle.device.specs.History.{HappensOn, did_read, did_write, did_sync};
ghost use Rattle.cache.specs.Held.{is_changed, slot_at};
ghost use Rattle.cache.specs.Cached.{pages_of, copies_of, HappensTo};
ghost use Rattle.cache.specs.Calls.{says_off, admitted, Fetches, Stores, Syncing};
ghost use Rattle.cache.specs.Inner.{answer_of, bytes_in, flushed, Goes, Rooms, Finding, FlushesAll};

use crate::cache::Cache;
use crate::copy::Copied;
use crate::place::Place;
use crate::slots::SLOTS;
use device::{Device, DeviceFault, PAGE_SIZE, Page, Reader};

// A page of a device, as a value: of a buffer that a closure writes to, the proof of its caller would learn nothing.
pub(super) fn read_page<R: Reader>(device: &mut R, page: u32) -> Result<Page, DeviceFault>
    ensures { HappensOn R.past R.medium device.old (did_read page (bytes_in result) (answer_of result)) device.new }
{
    let mut bytes = [0; PAGE_SIZE];
    device.read(page, &mut bytes)?;
    Ok(bytes)
}

impl<D: Device> Cache<D> {
    // Makes a call of the device below, and remembers it if the device says that it is off.
    pub(super) fn ask<T, F: FnOnce(&mut D) -> Result<T, DeviceFault>>(
        &mut self,
        call: F,
    ) -> Result<T, DeviceFault>
        requires { F.IsAlwaysCallable call }
        ensures below { FnOnceReturnsAtMut F.FnOnce call self.old.below result self.new.below }
        ensures slots { self.new.slots ≡ self.old.slots }
        ensures off { self.new.off ≡ (says_off result || self.old.off) }
    {
        let answer = call(&mut self.below);
        if let Err(DeviceFault::Off) = answer {
            self.off = true;
        }
        answer
    }

    // Writes a changed page below. If that fails, the page stays changed.
    fn flush(&mut self, place: Place) -> Result<(), DeviceFault>
        ensures slots { pages_of self.new ≡ flushed result (pages_of self.old) place.number }
        ensures clean { is_changed (slot_at (pages_of self.old) place.number) ≡ false → (result ≡ Ok tt) × (self.new ≡ self.old) }
        ensures meaning { Goes D.Reader self.old result self.new }
    {
        let Some(copy) = self.slots.get(place) else {
            return Ok(());
        };
        if !copy.changed {
            return Ok(());
        }
        self.ask(|below| below.write(copy.page, &copy.bytes))?;
        let clean = Copied {
            changed: false,
            ..copy
        };
        self.slots.put(place, clean);
        Ok(())
    }

    // Refuses a page outside the device, and then every page if the device is off.
    pub(super) fn admit(&self, page: u32) -> Result<(), DeviceFault>
        ensures { result ≡ admitted D.Reader self.now page }
    {
        if page >= self.below.pages() {
            return Err(DeviceFault::Outside);
        }
        if self.off {
            return Err(DeviceFault::Off);
        }
        Ok(())
    }

    // A slot for a page that is not held. A changed page that leaves it is written below first.
    fn room(&mut self) -> Result<Place, DeviceFault>
        ensures { Rooms D.Reader self.old result self.new }
    {
        let place = self.slots.oldest();
        self.flush(place)?;
        Ok(place)
    }

    // The slot that has the page, or one that it may go to. By `map_or_else` the proof would not learn that a closure
    // that is not called leaves the cache as it was.
    fn slot_for(&mut self, page: u32) -> Result<Place, DeviceFault>
        ensures { Finding D.Reader self.old page result self.new }
    {
        match self.slots.find(page) {
            Some(place) => Ok(place),
            None => self.room(),
        }
    }

    // Reads a page that is not held below, and holds it.
    pub(super) fn fetch(&mut self, page: u32) -> Result<Page, DeviceFault>
        requires admits { admitted D.Reader self.old page ≡ Ok tt }
        requires misses { copies_of self.old page ≡ None }
        ensures meaning { HappensTo D.Reader self.old (did_read page (bytes_in result) (answer_of result)) self.new }
        ensures fetches { Fetches D.Reader self.old page (bytes_in result) (answer_of result) self.new }
    {
        let place = self.room()?;
        let bytes = self.ask(|below| read_page(below, page))?;
        let copy = Copied {
            page,
            changed: false,
            bytes,
        };
        self.slots.put(place, copy);
        self.slots.touch(place);
        Ok(bytes)
    }

    // Writes a page to its slot.
    pub(super) fn store(&mut self, page: u32, bytes: &Page) -> Result<(), DeviceFault>
        requires { admitted D.Reader self.old page ≡ Ok tt }
        ensures meaning { HappensTo D.Reader self.old (did_write page bytes.now result) self.new }
        ensures stores { Stores self.old page bytes.now result self.new }
    {
        let place = self.slot_for(page)?;
        let copy = Copied {
            page,
            changed: true,
            bytes: *bytes,
        };
        self.slots.put(place, copy);
        self.slots.touch(place);
        Ok(())
    }

    // Writes every changed page below.
    fn flush_all(&mut self) -> Result<(), DeviceFault>
        ensures { FlushesAll D.Reader self.old result self.new }
    {
        for number in 0..SLOTS {
            self.flush(Place { number })?;
        }
        Ok(())
    }

    // Makes every page durable. The changed ones are written below before the device is synced.
    pub(super) fn settle(&mut self) -> Result<(), DeviceFault>
        requires { self.old.off ≡ false }
        ensures meaning { HappensTo D.Reader self.old (did_sync result) self.new }
        ensures exact { Syncing D.Reader false self.old result self.new }
    {
        self.flush_all()?;
        self.ask(|below| below.sync())
    }
}
