// What is told of a card: whether it is sound, and what each of its pages is.
#![tactic(auto)]

mod contents;
mod family;
pub mod laws;
mod parents;
mod row;
mod verdict;

pub use contents::{Content, Fill};
pub use family::{Place, Tree, newest};
pub use parents::Parents;
pub use row::{Note, Row};
pub use verdict::Verdict;
