// The walk over the tree on a device's pages, and the check of a whole device.
#![tactic(auto)]

mod descent;
mod inspection;
mod marks;
mod node;
mod spot;

pub use inspection::{Recovered, Summary, check, check_room, has_room, recover};
pub use marks::Marks;
