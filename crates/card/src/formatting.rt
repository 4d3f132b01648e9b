// `card format`: makes the image of a new card.
use crate::failure::Failure;
use crate::files::save;
use crate::status::Status;
use crate::words::NewCard;
use device::{PAGE_SIZE, Reader};
use disks::WriteThrough;
use std::alloc::Global;
use store::Store;
use walk::check_room;

// The limit of a disk whose power never fails.
const NO_LIMIT: u64 = 0;

// The bytes of a new card of so many pages, as a store leaves them that formats a blank disk.
pub fn new_image(alloc: Global, pages: u32) -> anyhow::Result<Vec<u8>> {
    // tested before there is a disk, which may be too large for the memory
    check_room(pages)?;
    let mut store = Store::new(WriteThrough::new(alloc, pages, NO_LIMIT)?);
    store.format()?;
    let mut disk = store.into_device();
    let mut bytes = Vec::new(alloc);
    for page in 0..pages {
        let mut buffer = [0; PAGE_SIZE];
        disk.read(page, &mut buffer)?;
        bytes.extend_from_slice(&buffer)?;
    }
    Ok(bytes)
}

fn make(rt: &HostRuntime, card: &NewCard<'_>) -> anyhow::Result<()> {
    let bytes = new_image(rt.alloc(), card.pages)?;
    save(rt, card.file, &bytes, card.replaces)
}

pub fn format<'a>(rt: &HostRuntime, card: &NewCard<'a>) -> Result<Status, Failure<'a>> {
    make(rt, card).map_err(|error| Failure::with(card.file, error))?;
    Ok(Status::Fine)
}
