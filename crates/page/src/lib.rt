// Pages of cells: their layout, their first fault, and their edits.
#![tactic(auto)]

mod body;
mod branch;
mod bytes;
mod cell;
mod cell_page;
mod cells;
mod draft;
mod fault;
mod grown;
pub mod laws;
mod leaf;
mod short;
mod splice;

pub use branch::BranchPage;
pub use cell::{BranchCell, Cell, LeafCell};
pub use cell_page::CellPage;
pub use fault::{Cause, Damage, PageFault};
pub use grown::Grown;
pub use leaf::{LeafPage, PairParts, pair_in};
pub use short::Short;
