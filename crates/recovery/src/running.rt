ghost use Rattle.std.specs.Prelude.{◌≡◌, None};
ghost use Rattle.recovery.specs.Premise.{Premise};
ghost use Rattle.recovery.specs.Runs.{RunsTo};

use device::PowerCycle;
use faults::StoreFault;
use store::{Answer, Call, Store};

// An entry of a client's script: a call, with the place for its answer.
#[derive(Drop)]
pub struct Entry {
    pub call: Call,
    pub answer: Option<Result<Answer, StoreFault>>,
}

impl Entry {
    pub fn new(call: Call) -> Self
        ensures call { result.call ≡ call }
        ensures answer { result.answer ≡ None }
    {
        Entry { call, answer: None }
    }
}

// Makes a client's calls on a new store, formats and power returns among them, and puts each answer beside its call.
pub fn run<D: PowerCycle>(device: D, script: &mut [Entry]) -> Store<D>
    ensures { RunsTo D.Reader.past D.Reader.medium Premise (D.Reader.past device) device script.old script.new result }
{
    let mut store = Store::new(device);
    for entry in script.iter_mut() {
        entry.answer = Some(store.act(&entry.call));
    }
    store
}
