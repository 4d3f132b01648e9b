// Format and power return, after which a store is shut.
ghost use Rattle.std.specs.Prelude.{◌≡◌};
ghost use Rattle.device.specs.History.{HappensOn, power_returned};
ghost use Rattle.store.specs.Formatting.{FormatsTo};
ghost use Rattle.store.specs.Snapshots.{StoreActs};
ghost use Rattle.store.specs.Versions.{Forgotten};
ghost use Rattle.store.specs.declared.state.State.TheVariants.{Shut};

use crate::formatting::lay_out;
use crate::state::{Held, State};
use crate::store::Store;
use device::{Device, PowerCycle, Reader};
use faults::StoreFault;
use walk::check_room;

impl<D: Device> Store<D> {
    // Formats the device: an empty map, as commit 0. The store is then shut.
    pub fn format(&mut self) -> Result<(), StoreFault>
        ensures { StoreActs D.Reader self.old self.new (λ s z t. FormatsTo s z t result) }
    {
        if let State::InTransaction(_) = self.state {
            return Err(StoreFault::InTransaction);
        }
        check_room(self.device.pages())?;
        self.state = State::Shut;
        lay_out(&mut self.device)?;
        Ok(())
    }
}

impl<D: PowerCycle> Store<D> {
    // Power returns, whether it had failed or not. The store is shut, and keeps nothing but its device.
    pub fn power_return(&mut self)
        ensures device { HappensOn D.Reader.past D.Reader.medium self.old.device power_returned self.new.device }
        ensures shut { self.new.state ≡ Shut }
        ensures forgotten { Forgotten self.new.held }
    {
        self.device.power_return();
        self.state = State::Shut;
        self.held = Held::new();
    }
}
