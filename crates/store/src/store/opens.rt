ghost use Rattle.store.specs.Opening.{Opens};
ghost use Rattle.store.specs.Snapshots.{StoreActs};

use crate::opening::reopen;
use crate::state::State;
use crate::store::Store;
use device::Device;
use faults::StoreFault;

impl<D: Device> Store<D> {
    // Opens the store with what its device holds, and answers the number of the last commit. Refused in a transaction;
    // after any other refusal the store is shut.
    pub fn open(&mut self) -> Result<u64, StoreFault>
        ensures { StoreActs D.Reader self.old self.new (λ s z t. Opens s z t result) }
    {
        if let State::InTransaction(_) = self.state {
            return Err(StoreFault::InTransaction);
        }
        self.state = State::Shut;
        let found = reopen(&mut self.device)?;
        self.state = State::Idle(found.meta);
        self.held.committed = found.marks;
        Ok(found.meta.commit)
    }
}
