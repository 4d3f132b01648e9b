// The store: one ordered map on a device, with transactions.
#![tactic(auto)]

mod client;
mod formatting;
mod opening;
mod sealing;
mod state;
mod store;
mod ticket;

pub use client::{Answer, Call};
pub use store::Store;
pub use ticket::Ticket;
