ghost use Rattle.device.specs.History.{HappensOn, did_read};
ghost use Rattle.disks.specs.Images.{image_medium};
ghost use Rattle.disks.specs.ImageCalls.{bytes_of, Makes, ImageReads};
ghost use Rattle.disks.specs.Parts.{part_length};

use crate::image::{Image, ImageFault};
use device::{DeviceFault, PAGE_SIZE, Page, Reader};

impl Image {
    pub fn new(bytes: Vec<u8>) -> Result<Self, ImageFault>
        ensures { Makes bytes.items result }
    {
        if bytes.len() % PAGE_SIZE != 0 {
            return Err(ImageFault::PartialPage);
        }
        if u32::try_from(bytes.len() / PAGE_SIZE).is_err() {
            return Err(ImageFault::TooManyPages);
        }
        Ok(Image { bytes })
    }
}

impl Reader for Image {
    ghost medium = { λ i. image_medium (bytes_of i) };

    ghost past = { λ _ _. Unit {0} };

    ghost whole = { λ d p h. part_length (bytes_of d) p h };

    fn pages(&self) -> u32 {
        // it fits, by `few`: a try_from would have an error that cannot be
        (self.bytes.len() / PAGE_SIZE) as u32
    }

    fn read(&mut self, page: u32, buffer: &mut Page) -> Result<(), DeviceFault>
        ensures meaning { HappensOn (λ _ _. Unit {0}) (λ i. image_medium (bytes_of i)) self.old (did_read page buffer.new result) self.new }
        ensures exact { ImageReads self.old page buffer.new result self.new }
    {
        *buffer = [0; PAGE_SIZE];
        if page >= self.pages() {
            return Err(DeviceFault::Outside);
        }
        // by `as`: a `usize` is as wide at least, and has no `From` for that
        let start = page as usize * PAGE_SIZE;
        buffer.copy_from_slice(&self.bytes[start..start + PAGE_SIZE]);
        Ok(())
    }
}
