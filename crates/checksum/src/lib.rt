// What every page carries: its kind, in its first byte, and its checksum, a CRC-32.
#![tactic(auto)]

mod crc;
mod kind;
mod page;
mod table;

pub use crc::crc32;
pub use kind::{Kind, NoKind};
pub use page::{checksum, is_sealed, seal};
