ghost use Rattle.store.specs.Acting.{ActsOn};
ghost use Rattle.store.specs.Formatting.{LaysOut};

use crate::sealing::seal;
use device::{Device, DeviceFault, PAGE_SIZE};
use meta::Meta;
use page::LeafPage;

// Lays out a device: blank meta pages and an empty leaf, and when these are durable, commit 0.
pub(crate) fn lay_out<D: Device>(device: &mut D) -> Result<(), DeviceFault>
    ensures { ActsOn D.Reader device.old device.new (λ m n t. LaysOut m n t result) }
{
    let first = Meta {
        pages: device.pages(),
        root: 2,
        commit: 0,
        pairs: 0,
        levels: 1,
    };
    let blank = [0; PAGE_SIZE];
    let leaf = LeafPage::empty();
    device.write(0, &blank)?;
    device.write(1, &blank)?;
    device.write(2, leaf.bytes())?;
    seal(device, &first)
}
