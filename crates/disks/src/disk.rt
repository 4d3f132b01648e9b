ghost use Rattle.std.specs.Prelude.{◌^◌, ◌<◌, length};

use crate::fuse::Fuse;
use crate::stored::{AtOnce, AtSync, Stored};

mod calls;

// A simulated device. How it keeps its pages is left to their type.
#[derive(Drop)]
pub struct Disk<S: Stored> {
    pages: Vec<S>,
    fuse: Fuse,
    ghost few: { length pages.items < 2 ^ 32 },
}

// Its writes are durable at once.
pub type WriteThrough = Disk<AtOnce>;

// Its writes are durable only after a sync: a power return shows each page as it was at the last one.
pub type WriteBehind = Disk<AtSync>;
