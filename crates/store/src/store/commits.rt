ghost use Rattle.store.specs.Calls.{Commits};
ghost use Rattle.store.specs.Snapshots.{StoreActs};

use crate::sealing::seal;
use crate::state::State;
use crate::store::Store;
use crate::ticket::Ticket;
use device::Device;
use faults::StoreFault;

impl<D: Device> Store<D> {
    // Makes the working map the committed one, and answers the number of that commit, which is durable then. If power
    // fails, the store is shut; docs/POWER.md says what the next opening finds.
    pub fn commit(&mut self, ticket: Ticket) -> Result<u64, StoreFault>
        ensures { StoreActs D.Reader self.old self.new (λ s z t. Commits s z t result) }
    {
        ticket.take_back();
        match self.state {
            State::Shut => Err(StoreFault::Shut),
            State::Idle(_) => Err(StoreFault::NoTransaction),
            State::InTransaction(transaction) => {
                let working = transaction.working;
                self.state = State::Shut;
                seal(&mut self.device, &working)?;
                self.state = State::Idle(working);
                self.held.committed = self.held.working;
                Ok(working.commit)
            }
        }
    }
}
