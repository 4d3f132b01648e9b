// The order of keys, separators, and where an overfull list is cut.
#![tactic(auto)]

mod compare;
pub mod laws;

pub use compare::{key_less, separator_len};
