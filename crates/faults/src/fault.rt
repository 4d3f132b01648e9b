ghost use Rattle.std.specs.Prelude.{◌≡◌, Some};
ghost use Rattle.faults.specs.Faults.{from_page, from_device};
ghost use Rattle.faults.specs.Numbers.{number};
ghost use Rattle.faults.specs.Words.{plain_words, shown_fault};

use device::DeviceFault;
use page::PageFault;
use std::error::Error;
use std::fmt;

// Why a call of the store is refused.
#[derive(Clone, Copy, PartialEq, Eq, Debug)]
pub enum StoreFault {
    // the store is shut
    Shut,
    // the store is in a transaction
    InTransaction,
    // the store is in no transaction
    NoTransaction,
    // the key is too short or too long for the call
    KeyLength,
    // the map has no such key
    Absent,
    // no meta page passes its test
    NoMeta,
    // a page could not be had: the device refused, or the page is damaged
    Page(PageFault),
    // the device has fewer than 16 pages, or more than 1,024
    PageCount,
    // the last commit has the largest number that there is
    LastCommit,
    // the buffer is no leaf page, or has no cell of that number
    NoCell,
}

impl From<PageFault> for StoreFault {
    ghost from_gives = { λ f r. r ≡ from_page f };

    fn from(fault: PageFault) -> StoreFault {
        StoreFault::Page(fault)
    }
}

impl From<DeviceFault> for StoreFault {
    ghost from_gives = { λ f r. r ≡ from_device f };

    fn from(fault: DeviceFault) -> StoreFault {
        StoreFault::Page(PageFault::from(fault))
    }
}

impl StoreFault {
    // Its number; a conversion would not say which number it gives. A page number that leads outside the device is a
    // damaged tree, so it has the number of damage.
    pub fn number(self) -> u8
        ensures { result ≡ number self }
    {
        match self {
            StoreFault::Shut => 1,
            StoreFault::InTransaction => 2,
            StoreFault::NoTransaction => 3,
            StoreFault::KeyLength => 4,
            StoreFault::Absent => 6,
            StoreFault::NoMeta => 8,
            StoreFault::Page(PageFault::Damaged(_)) => 9,
            StoreFault::Page(PageFault::Device(DeviceFault::Outside)) => 9,
            StoreFault::Page(PageFault::Device(DeviceFault::Off)) => 10,
            StoreFault::PageCount => 11,
            StoreFault::LastCommit => 12,
            StoreFault::NoCell => 13,
        }
    }

    // The words for what is refused, the page left out, for a caller that has no formatter.
    pub fn as_str(self) -> &'static str
        ensures { result.now ≡ plain_words self }
    {
        match self {
            StoreFault::Shut => "the store is shut",
            StoreFault::InTransaction => "in a transaction",
            StoreFault::NoTransaction => "not in a transaction",
            StoreFault::KeyLength => "the key is too short or too long",
            StoreFault::Absent => "no such key",
            StoreFault::NoMeta => "no meta page passes its test",
            StoreFault::Page(_) => "a page could not be had",
            StoreFault::PageCount => "the number of pages is not 16 to 1024",
            StoreFault::LastCommit => "no commit number is left",
            StoreFault::NoCell => "not a leaf page, or no such cell",
        }
    }
}

impl fmt::Display for StoreFault {
    ghost output = { λ f. Some (shown_fault f) };

    fn fmt<W: fmt::Write>(&self, f: &mut fmt::Formatter<W>) -> fmt::Result {
        let number = self.number();
        match *self {
            Self::Page(fault) => write!(f, "fault {number}: {fault}"),
            plain => {
                let words = plain.as_str();
                write!(f, "fault {number}: {words}")
            }
        }
    }
}

impl Error for StoreFault {}
