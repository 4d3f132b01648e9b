ghost use Rattle.std.specs.Prelude.{◌≡◌, Some};
ghost use Rattle.page.specs.Faults.{from_device, from_damage, cause_number, cause_words, damage_words, page_words};

use device::DeviceFault;
use std::error::Error;
use std::fmt;

// What can be wrong with a page, in the order in which it is looked for.
#[derive(Clone, Copy, PartialEq, Eq, Debug)]
pub enum Cause {
    // the checksum is wrong
    Checksum,
    // the kind byte is not the one that this level has
    Kind,
    // the bytes are not the page of the cells that they say
    Layout,
    // keys or separators do not rise
    Order,
    // a key or separator lies outside the bounds that the parent gives
    Bounds,
    // a page other than the root costs less than a quarter; or a branch root has no separator
    Underfull,
    // a child lies outside the pages of the tree, or was met before; the page named is the parent
    Child,
    // the pairs are not as many as the meta page says; the page named is the root
    PairCount,
}

impl Cause {
    // Its place in the order in which a walk looks for causes; a conversion would not say which number it gives.
    pub fn number(self) -> u8
        ensures { result ≡ cause_number self }
    {
        match self {
            Cause::Checksum => 1,
            Cause::Kind => 2,
            Cause::Layout => 3,
            Cause::Order => 4,
            Cause::Bounds => 5,
            Cause::Underfull => 6,
            Cause::Child => 7,
            Cause::PairCount => 8,
        }
    }

    // Its words, for a caller that has no formatter.
    pub fn as_str(self) -> &'static str
        ensures { result.now ≡ cause_words self }
    {
        match self {
            Cause::Checksum => "checksum is wrong",
            Cause::Kind => "kind byte is not the one of this level",
            Cause::Layout => "bytes are not the page of their cells",
            Cause::Order => "keys or separators do not rise",
            Cause::Bounds => "a key or separator is outside its bounds",
            Cause::Underfull => "page is underfull, or a branch root has no separator",
            Cause::Child => "a child is outside the tree's pages, or was met before",
            Cause::PairCount => "pair count is not the meta page's",
        }
    }
}

impl fmt::Display for Cause {
    ghost output = { λ c. Some (cause_words c) };

    fn fmt<W: fmt::Write>(&self, f: &mut fmt::Formatter<W>) -> fmt::Result {
        f.write_str(self.as_str())
    }
}

impl Error for Cause {}

// A page with something wrong.
#[derive(Clone, Copy, PartialEq, Eq, Debug)]
pub struct Damage {
    pub page: u32,
    pub cause: Cause,
}

impl fmt::Display for Damage {
    ghost output = { λ d. Some (damage_words d) };

    fn fmt<W: fmt::Write>(&self, f: &mut fmt::Formatter<W>) -> fmt::Result {
        let Damage { page, cause } = *self;
        let number = cause.number();
        write!(f, "page {page}, cause {number}: {cause}")
    }
}

impl Error for Damage {}

// Why a page could not be had: the device refused, or the page is damaged.
#[derive(Clone, Copy, PartialEq, Eq, Debug)]
pub enum PageFault {
    Device(DeviceFault),
    Damaged(Damage),
}

impl From<DeviceFault> for PageFault {
    ghost from_gives = { λ f r. r ≡ from_device f };

    fn from(fault: DeviceFault) -> PageFault {
        PageFault::Device(fault)
    }
}

impl From<Damage> for PageFault {
    ghost from_gives = { λ d r. r ≡ from_damage d };

    fn from(damage: Damage) -> PageFault {
        PageFault::Damaged(damage)
    }
}

impl fmt::Display for PageFault {
    ghost output = { λ f. Some (page_words f) };

    fn fmt<W: fmt::Write>(&self, f: &mut fmt::Formatter<W>) -> fmt::Result {
        match *self {
            Self::Device(fault) => write!(f, "{fault}"),
            Self::Damaged(damage) => write!(f, "{damage}"),
        }
    }
}

impl Error for PageFault {}
