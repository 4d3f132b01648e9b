ghost use Rattle.std.specs.Prelude.{◌≡◌, Some};
ghost use Rattle.disks.specs.ImageFaults.{words};

use std::error::Error;
use std::fmt;

// Why bytes are no image.
#[derive(Clone, Copy, PartialEq, Eq, Debug)]
pub enum ImageFault {
    // the last page is not whole
    PartialPage,
    // there are 2^32 pages or more
    TooManyPages,
}

impl ImageFault {
    // Its words, for a caller that has no formatter.
    pub fn as_str(self) -> &'static str
        ensures { result.now ≡ words self }
    {
        match self {
            ImageFault::PartialPage => "not a whole number of 512-byte pages",
            ImageFault::TooManyPages => "too many pages",
        }
    }
}

impl fmt::Display for ImageFault {
    ghost output = { λ f. Some (words f) };

    fn fmt<W: fmt::Write>(&self, f: &mut fmt::Formatter<W>) -> fmt::Result {
        f.write_str(self.as_str())
    }
}

impl Error for ImageFault {}
