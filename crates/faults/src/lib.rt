// What a call of the store refuses: each fault with its number and its words.
#![tactic(auto)]

mod fault;

pub use fault::StoreFault;
