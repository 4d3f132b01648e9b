// Trees on the pages of a device: what lies there, the walk over it, and which trees the walk accepts. All of it is
// definitions (specs/) and laws; the code of the walk is in the crate `walk`.
#![tactic(auto)]

pub mod laws;
