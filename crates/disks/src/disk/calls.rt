ghost use Rattle.std.specs.Prelude.{◌≡◌, [], map, replicate, IfOk};
ghost use Rattle.device.specs.History.{did_read, did_write, did_sync, power_returned};
ghost use Rattle.disks.specs.Fuses.{fresh};
ghost use Rattle.disks.specs.Kept.{blank, restored};
ghost use Rattle.disks.specs.Disks.{pages_of, disk_medium, disk_past, Does, AdmitsAt, DiskReads, DiskWrites, DiskSyncs, DiskReturns};
ghost use Rattle.disks.specs.Parts.{page_length};

use crate::disk::Disk;
use crate::fuse::Fuse;
use crate::stored::Stored;
use device::{Device, DeviceFault, PAGE_SIZE, Page, PowerCycle, Reader};
use std::alloc::{AllocError, Global};

impl<S: Stored> Disk<S> {
    // A disk of zeros, all durable, and on. The `limit`-th call from now, and from each power return, is the
    // first that it refuses with `Off`; none, if `limit` is 0.
    pub fn new(heap: Global, pages: u32, limit: u64) -> Result<Self, AllocError>
        ensures pages { IfOk result (λ d. pages_of d ≡ replicate pages blank) }
        ensures fuse { IfOk result (λ d. d.fuse ≡ fresh limit) }
        ensures past { IfOk result (λ d. disk_past d []) }
    {
        // all room at once: `collect` asks for less and less of it, and fills what it gets, before it gives up
        let mut kept = Vec::new(heap);
        kept.resize_with(pages as usize, || S::blank())?;
        Ok(Disk {
            pages: kept,
            fuse: Fuse::new(limit),
        })
    }

    // The disk after a power return, with another limit.
    pub fn with_limit(mut self, limit: u64) -> Self
        ensures pages { pages_of result ≡ map restored (pages_of self) }
        ensures fuse { result.fuse ≡ fresh limit }
        ensures past { disk_past result [] }
    {
        self.power_return();
        self.fuse = Fuse::new(limit);
        self
    }

    // The calls counted since the disk was made, or since power last returned.
    pub fn calls(&self) -> u64
        ensures { result ≡ self.now.fuse.calls }
    {
        self.fuse.calls()
    }

    // Counts a call, and refuses it if power fails. One for a page outside the disk is refused first.
    fn admit_at(&mut self, page: u32) -> Result<(), DeviceFault>
        ensures { AdmitsAt self.old page result self.new }
    {
        if page >= self.pages() {
            return Err(DeviceFault::Outside);
        }
        self.fuse.call()
    }
}

impl<S: Stored> Reader for Disk<S> {
    ghost medium = { disk_medium };

    ghost past = { disk_past };

    ghost whole = { λ d p h. page_length S.kept S.full d.pages.items p h };

    fn pages(&self) -> u32 {
        // it fits, by `few`: a try_from would have an error that cannot be
        self.pages.len() as u32
    }

    fn read(&mut self, page: u32, buffer: &mut Page) -> Result<(), DeviceFault>
        ensures meaning { Does self.old (did_read page buffer.new result) self.new }
        ensures exact { DiskReads self.old page buffer.new result self.new }
    {
        *buffer = [0; PAGE_SIZE];
        self.admit_at(page)?;
        // by `as`, here and below: a `usize` is as wide at least, and has no `From` for that
        *buffer = *self.pages[page as usize].bytes();
        Ok(())
    }
}

impl<S: Stored> Device for Disk<S> {
    fn write(&mut self, page: u32, bytes: &Page) -> Result<(), DeviceFault>
        ensures meaning { Does self.old (did_write page bytes.now result) self.new }
        ensures exact { DiskWrites self.old page bytes.now result self.new }
    {
        self.admit_at(page)?;
        self.pages[page as usize].write(bytes);
        Ok(())
    }

    fn sync(&mut self) -> Result<(), DeviceFault>
        ensures meaning { Does self.old (did_sync result) self.new }
        ensures exact { DiskSyncs self.old result self.new }
    {
        self.fuse.call()?;
        for page in self.pages.iter_mut() {
            page.settle();
        }
        Ok(())
    }
}

impl<S: Stored> PowerCycle for Disk<S> {
    fn power_return(&mut self)
        ensures meaning { Does self.old power_returned self.new }
        ensures exact { DiskReturns self.old self.new }
    {
        for page in self.pages.iter_mut() {
            page.restore();
        }
        self.fuse.renew();
    }
}
