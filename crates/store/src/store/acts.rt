ghost use Rattle.store.specs.Client.{Does};
ghost use Rattle.store.specs.Snapshots.{StoreActs};

use crate::client::{Answer, Call};
use crate::store::Store;
use crate::ticket::Ticket;
use device::{PAGE_SIZE, PowerCycle};
use faults::StoreFault;

impl<D: PowerCycle> Store<D> {
    // Makes a call that is data, as in a script. It needs no ticket and hands out none: that of a begin is taken back at once.
    pub fn act(&mut self, call: &Call) -> Result<Answer, StoreFault>
        ensures { StoreActs D.Reader self.old self.new (λ s z t. Does call.now s z result t) }
    {
        match call {
            Call::Format => {
                self.format()?;
                Ok(Answer::Done)
            }
            Call::Open => self.open().map(Answer::Number),
            Call::Begin => {
                self.begin()?.take_back();
                Ok(Answer::Done)
            }
            Call::Get(key) => {
                let mut page = [0; PAGE_SIZE];
                self.get(key, &mut page).map(Answer::Cell)
            }
            Call::After(key) => {
                let mut page = [0; PAGE_SIZE];
                self.after(key, &mut page).map(Answer::Cell)
            }
            Call::Abort => {
                self.abort(Ticket::new())?;
                Ok(Answer::Done)
            }
            Call::Commit => self.commit(Ticket::new()).map(Answer::Number),
            Call::PowerReturn => {
                self.power_return();
                Ok(Answer::Done)
            }
        }
    }
}
