ghost use Rattle.std.specs.Prelude.{◌≡◌, Some};
ghost use Rattle.device.specs.Faults.{words};

use std::error::Error;
use std::fmt;

// Why a device refuses a call.
#[derive(Clone, Copy, PartialEq, Eq, Debug)]
pub enum DeviceFault {
    // the page number is at or past the device's number of pages
    Outside,
    // power failed on this call, or on an earlier one
    Off,
}

impl DeviceFault {
    // Its words, for a caller that has no formatter.
    pub fn as_str(self) -> &'static str
        ensures { result.now ≡ words self }
    {
        match self {
            DeviceFault::Outside => "page outside the device",
            DeviceFault::Off => "device off",
        }
    }
}

impl fmt::Display for DeviceFault {
    ghost output = { λ f. Some (words f) };

    fn fmt<W: fmt::Write>(&self, f: &mut fmt::Formatter<W>) -> fmt::Result {
        f.write_str(self.as_str())
    }
}

impl Error for DeviceFault {}
