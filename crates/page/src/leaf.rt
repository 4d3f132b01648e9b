use crate::cell::LeafCell;
use crate::cell_page::CellPage;

mod calls;
mod edits;
mod pair;
mod reads;

pub use pair::{PairParts, pair_in};

// A leaf.
pub type LeafPage = CellPage<LeafCell>;
