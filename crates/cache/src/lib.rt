#![tactic(auto)]

mod cache;
mod copy;
mod place;
mod slot;
mod slots;

pub use cache::Cache;
