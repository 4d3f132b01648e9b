// The promise on power loss: once a format was accepted, and until power interrupts another, an opening finds the last commit
// that was acknowledged, or the one that power interrupted, whole, if no power return made up a meta page. It is the contract
// of `run`, which makes any calls of a client on a new store over any device.
#![tactic(auto)]

mod running;

pub use running::{Entry, run};
