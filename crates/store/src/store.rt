use crate::state::{Held, State};

mod acts;
mod commits;
mod opens;
mod reads;
mod restarts;
mod transactions;

// A store over a device.
#[derive(Drop)]
pub struct Store<D> {
    device: D,
    state: State,
    held: Held,
}
