// A fare record on a device: its text on data pages, and a header page that says that it stands.
ghost use Rattle.std.specs.Prelude.{◌≡◌};

use device::{Device, DeviceFault, Page, Reader};
use std::fmt;

pub const HEADER: u32 = 0;

pub const FIRST_DATA: u32 = 1;

// How many there are, which the header says in a byte.
pub const DATA_PAGES: u8 = 3;

// The first byte of a header.
const MARK: u8 = 0x46;

// What a device holds of the record.
#[derive(Clone, Copy, PartialEq, Eq, Debug)]
pub enum Held {
    Nothing,
    // data pages, and no header that names them
    Unnamed,
    Whole,
    // a header, and not all of the data pages that it names
    Torn,
}

impl fmt::Display for Held {
    fn fmt<W: fmt::Write>(&self, f: &mut fmt::Formatter<W>) -> fmt::Result {
        f.write_str(match self {
            Held::Nothing => "no fare",
            Held::Unnamed => "no fare (data pages that no header names)",
            Held::Whole => "the fare, whole",
            Held::Torn => "a torn fare",
        })
    }
}

fn header_page() -> Page {
    let mut page = [0; 512];
    page[0] = MARK;
    page[1] = DATA_PAGES;
    page
}

// The text of the record, a piece for each data page.
const TEXTS: [&str; 3] = [
    "trip 1207, 2026-11-16, 08:12 to 08:40, 11.3 km",
    "base 4.00, distance 13.20, waiting 1.20",
    "fare 18.40, paid in cash",
];

fn data_page(text: &str) -> Page {
    let mut page = [0; 512];
    for (place, byte) in page.iter_mut().zip(text.bytes()) {
        *place = byte;
    }
    page
}

// Stores the record: the data pages, a sync, the header, a sync. The header is written only when all that it
// names is durable, so that power may fail on any call.
pub fn store<D: Device>(device: &mut D) -> Result<(), DeviceFault> {
    for (page, text) in (FIRST_DATA..).zip(TEXTS) {
        device.write(page, &data_page(text))?;
    }
    device.sync()?;
    device.write(HEADER, &header_page())?;
    device.sync()
}

// How many of the record's data pages a device holds. A `for` and no `filter` with `count`, as each read may fail.
pub fn data_pages_held<R: Reader>(reader: &mut R) -> Result<u8, DeviceFault> {
    let mut held = 0;
    let mut buffer = [0; 512];
    for n in 0..DATA_PAGES {
        reader.read(FIRST_DATA + u32::from(n), &mut buffer)?;
        if buffer == data_page(TEXTS[usize::from(n)]) {
            held += 1;
        }
    }
    Ok(held)
}

pub fn header_held<R: Reader>(reader: &mut R) -> Result<bool, DeviceFault> {
    let mut buffer = [0; 512];
    reader.read(HEADER, &mut buffer)?;
    Ok(buffer == header_page())
}

pub fn find<R: Reader>(reader: &mut R) -> Result<Held, DeviceFault> {
    let data = data_pages_held(reader)?;
    Ok(match (header_held(reader)?, data) {
        (false, 0) => Held::Nothing,
        (false, _) => Held::Unnamed,
        (true, DATA_PAGES) => Held::Whole,
        (true, _) => Held::Torn,
    })
}
