ghost use Rattle.std.specs.Prelude.{◌≡◌};
ghost use Rattle.store.specs.Reading.{shut_if_off};
ghost use Rattle.store.specs.States.{version_in};
ghost use Rattle.store.specs.Versions.{Forgotten};

use device::DeviceFault;
use faults::StoreFault;
use meta::Meta;
use page::PageFault;
use search::Place;
use walk::Marks;

// The versions of a transaction: the committed one, and the working one, which has the next number.
#[derive(Clone, Copy)]
pub struct Transaction {
    pub committed: Meta,
    pub working: Meta,
}

// A store is shut, idle with a committed version, or in a transaction.
#[derive(Clone, Copy)]
pub enum State {
    Shut,
    Idle(Meta),
    InTransaction(Transaction),
}

impl State {
    // The version that is read: the working one in a transaction, else the committed one.
    pub(crate) fn version(self) -> Result<Meta, StoreFault>
        ensures { result ≡ version_in self }
    {
        match self {
            State::Shut => Err(StoreFault::Shut),
            State::Idle(committed) => Ok(committed),
            State::InTransaction(transaction) => Ok(transaction.working),
        }
    }

    // A store whose device is off is shut.
    pub(crate) fn shut_if_off(&mut self, found: &Result<Option<Place>, PageFault>)
        ensures { self.new ≡ shut_if_off found.now self.old }
    {
        if let Err(PageFault::Device(DeviceFault::Off)) = found {
            *self = State::Shut;
        }
    }
}

// Marks on the pages of the committed and of the working tree: what they hold is not free. They stand beside the state,
// and not in it: what a state holds is copied where a call matches it, and marks are a kilobyte each.
#[derive(Clone, Copy)]
pub struct Held {
    pub committed: Marks,
    pub working: Marks,
}

impl Held {
    // No page is marked.
    pub(crate) fn new() -> Self
        ensures { Forgotten result }
    {
        Held {
            committed: Marks::new(),
            working: Marks::new(),
        }
    }
}
