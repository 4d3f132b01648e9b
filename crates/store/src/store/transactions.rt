// Making a store and giving it up, begin and abort: none of them calls the device.
ghost use Rattle.std.specs.Prelude.{◌≡◌};
ghost use Rattle.store.specs.Calls.{ObeysIfSound, granted};
ghost use Rattle.store.specs.Model.{begins, aborts};
ghost use Rattle.store.specs.Snapshots.{snapshot};
ghost use Rattle.store.specs.Versions.{Forgotten};
ghost use Rattle.store.specs.declared.state.State.TheVariants.{Shut};

use crate::state::{Held, State, Transaction};
use crate::store::Store;
use crate::ticket::Ticket;
use device::Device;
use faults::StoreFault;
use meta::Meta;

impl<D: Device> Store<D> {
    // A store that is shut, over a device that may hold anything.
    pub fn new(device: D) -> Self
        ensures device { result.device ≡ device }
        ensures shut { result.state ≡ Shut }
        ensures forgotten { Forgotten result.held }
    {
        Store {
            device,
            state: State::Shut,
            held: Held::new(),
        }
    }

    // Gives the device back as it is. In a transaction the working map is dropped; there is a ticket then, which is to
    // be handed to another store.
    pub fn into_device(self) -> D
        ensures { result ≡ self.device }
    {
        let Store {
            device,
            state: _,
            held: _,
        } = self;
        device
    }

    // Begins a transaction: the working map is the committed one.
    pub fn begin(&mut self) -> Result<Ticket, StoreFault>
        ensures device { self.new.device ≡ self.old.device }
        ensures model { ObeysIfSound (snapshot D.Reader self.old) (snapshot D.Reader self.new) begins (granted result) }
    {
        match self.state {
            State::Shut => Err(StoreFault::Shut),
            State::InTransaction(_) => Err(StoreFault::InTransaction),
            State::Idle(committed) => {
                let Some(commit) = committed.commit.checked_add(1) else {
                    return Err(StoreFault::LastCommit);
                };
                let working = Meta {
                    commit,
                    ..committed
                };
                self.state = State::InTransaction(Transaction { committed, working });
                self.held.working = self.held.committed;
                Ok(Ticket::new())
            }
        }
    }

    // Ends the transaction: the working map is dropped.
    pub fn abort(&mut self, ticket: Ticket) -> Result<(), StoreFault>
        ensures device { self.new.device ≡ self.old.device }
        ensures model { ObeysIfSound (snapshot D.Reader self.old) (snapshot D.Reader self.new) aborts result }
    {
        ticket.take_back();
        match self.state {
            State::Shut => Err(StoreFault::Shut),
            State::Idle(_) => Err(StoreFault::NoTransaction),
            State::InTransaction(transaction) => {
                self.state = State::Idle(transaction.committed);
                Ok(())
            }
        }
    }
}
