// Get and after with a buffer that is full of other bytes beforehand, and what a store that is shut refuses.
use crate::makers::LONG;
use device::{Device, PAGE_SIZE, Page, PowerCycle};
use faults::StoreFault;
use std::alloc::{AllocError, Global};
use std::process::Abort;
use store::{Call, Store};

// A call that reads the map.
#[derive(Clone, Copy)]
pub(crate) enum Read {
    Get,
    After,
}

impl Read {
    // The answer, and what the buffer holds then.
    pub(crate) fn ask<D: Device>(
        self,
        store: &mut Store<D>,
        key: &[u8],
    ) -> (Result<usize, StoreFault>, Page) {
        let mut page = [7; PAGE_SIZE];
        let answer = match self {
            Read::Get => store.get(key, &mut page),
            Read::After => store.after(key, &mut page),
        };
        (answer, page)
    }

    // The same as a call of a client.
    pub(crate) fn call(self, heap: Global, key: &[u8]) -> Result<Call, AllocError> {
        let key = Vec::from_slice(heap, key)?;
        Ok(match self {
            Read::Get => Call::Get(key),
            Read::After => Call::After(key),
        })
    }
}

// A read that is refused leaves zeros.
pub(crate) fn refused(fault: StoreFault) -> (Result<usize, StoreFault>, Page) {
    (Err(fault), [0; PAGE_SIZE])
}

// A store that is shut begins and ends no transaction, and reads nothing, whatever the key.
pub(crate) fn check_shut<D: PowerCycle>(rt: &impl Abort, store: &mut Store<D>) {
    for call in [Call::Begin, Call::Commit, Call::Abort] {
        assert_eq!(rt; store.act(&call), Err(StoreFault::Shut));
    }
    for key in [&LONG[..0], &LONG[..64], &LONG[..65]] {
        for read in [Read::Get, Read::After] {
            assert_eq!(rt; read.ask(store, key), refused(StoreFault::Shut));
        }
    }
}
