use crate::slots::Slots;
use device::Device;

mod calls;
mod steps;

// Up to eight pages of a device, held in memory. A write stays there until the next sync, or until its slot is
// wanted for another page.
#[derive(Drop)]
pub struct Cache<D: Device> {
    below: D,
    slots: Slots,
    // the device has said that it is off
    off: bool,
}
