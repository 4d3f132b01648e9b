// Trees as values, without pages: what put and remove do to them, and why the tree stays sound.
#![tactic(auto)]

pub mod laws;
