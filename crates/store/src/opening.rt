ghost use Rattle.store.specs.Acting.{ActsOn, CallsIf};
ghost use Rattle.store.specs.Opening.{SyncsAndReads, Reopens};
ghost use Rattle.walk.specs.Checking.{fits_pages};

use device::Device;
use faults::StoreFault;
use walk::{Recovered, check_room, recover};

// Reads a device anew: what was written is made durable first, so that what is found stands. It writes nothing.
pub(crate) fn reopen<D: Device>(device: &mut D) -> Result<Recovered, StoreFault>
    ensures { ActsOn D.Reader device.old device.new (λ m n t. CallsIf (fits_pages m.size) t (SyncsAndReads m t) × Reopens m n result) }
{
    check_room(device.pages())?;
    device.sync()?;
    recover(device)
}
