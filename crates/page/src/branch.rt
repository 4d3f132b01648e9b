use crate::cell::BranchCell;
use crate::cell_page::CellPage;

mod calls;
mod edits;
mod reads;

// A branch.
pub type BranchPage = CellPage<BranchCell>;
