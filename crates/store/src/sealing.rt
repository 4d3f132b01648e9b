ghost use Rattle.store.specs.Acting.{ActsOn};
ghost use Rattle.store.specs.Sealing.{Seals};

use device::{Device, DeviceFault};
use meta::Meta;

// Makes a version durable: first all that was written before, then its meta page, in the page of its number's parity.
pub(crate) fn seal<D: Device>(device: &mut D, meta: &Meta) -> Result<(), DeviceFault>
    ensures { ActsOn D.Reader device.old device.new (λ m n t. Seals meta.now m n t result) }
{
    device.sync()?;
    let page = meta.encode();
    // it fits: 0 or 1
    device.write((meta.commit % 2) as u32, &page)?;
    device.sync() // and this too is durable
}
