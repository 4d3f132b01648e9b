// Devices of 16 pages, each with a limit: the number of the call on which power fails. They are disks of either kind, and
// caches over them.
use cache::Cache;
use device::{Device, PAGE_SIZE, PowerCycle, Reader};
use disks::{AtOnce, AtSync, Disk, Stored};
use std::alloc::Global;
use std::test::Fail;

const PAGES: u32 = 16;

// A kind of disk.
pub(crate) trait Kind: Stored {
    // whether its writes are durable at once
    const AT_ONCE: bool;
}

impl Kind for AtOnce {
    const AT_ONCE: bool = true;
}

impl Kind for AtSync {
    const AT_ONCE: bool = false;
}

// A disk, or a cache over one. Its limit and its calls are those of the disk.
pub(crate) trait Limited: PowerCycle + Drop {
    // whether the disk's writes are durable at once
    const AT_ONCE: bool;

    // the calls by which it is made
    const MADE: u64;

    // the calls of an opening of an empty map, all of whose pages were written since power returned
    const OPENING: u64;

    // the calls of a read after that
    const READING: u64;

    // The limit by which power fails on this call, of those after the device was made.
    fn limit(call: u64) -> u64 {
        Self::MADE.saturating_add(call)
    }

    // A device of zeros.
    fn blank(heap: Global, limit: u64) -> Result<Self, Fail>;

    // The device after a power return, with another limit.
    fn with_limit(self, heap: Global, limit: u64) -> Result<Self, Fail>;

    fn calls(&self) -> u64;
}

impl<S: Kind> Limited for Disk<S> {
    const AT_ONCE: bool = S::AT_ONCE;

    const MADE: u64 = 0;

    const OPENING: u64 = 4; // a sync, two meta pages, the leaf

    const READING: u64 = 1; // the leaf

    fn blank(heap: Global, limit: u64) -> Result<Self, Fail> {
        Ok(Disk::new(heap, PAGES, limit)?)
    }

    fn with_limit(self, _heap: Global, limit: u64) -> Result<Self, Fail> {
        Ok(Disk::with_limit(self, limit))
    }

    fn calls(&self) -> u64 {
        Disk::calls(self)
    }
}

impl<S: Kind> Limited for Cache<Disk<S>> {
    const AT_ONCE: bool = S::AT_ONCE;

    const MADE: u64 = 1; // a read of page 0

    const OPENING: u64 = 1; // a sync: the cache holds all three pages

    const READING: u64 = 0; // likewise

    fn blank(heap: Global, limit: u64) -> Result<Self, Fail> {
        Ok(Cache::new(Disk::new(heap, PAGES, limit)?))
    }

    // A cache does not give its disk back, so what is durable there is copied to another one. Power returns before each read:
    // it may fail again at the second call.
    fn with_limit(mut self, heap: Global, limit: u64) -> Result<Self, Fail> {
        let mut disk = Disk::new(heap, PAGES, 0)?;
        for page in 0..PAGES {
            let mut bytes = [0; PAGE_SIZE];
            self.power_return();
            self.read(page, &mut bytes)?;
            disk.write(page, &bytes)?;
        }
        disk.sync()?;
        Ok(Cache::new(disk.with_limit(limit)))
    }

    fn calls(&self) -> u64 {
        self.below().calls()
    }
}
