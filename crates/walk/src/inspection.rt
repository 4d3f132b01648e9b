ghost use Rattle.std.specs.Prelude.{◌≡◌};
ghost use Rattle.walk.specs.Checking.{summary_of};

use crate::marks::Marks;
use meta::Meta;

mod calls;

pub use calls::{check, check_room, has_room, recover};

// What was found on a device: its newest meta, and marks on the pages of its tree.
#[derive(Clone, Copy)]
pub struct Recovered {
    pub meta: Meta,
    pub marks: Marks,
}

// What a check says of a sound device: the number of its last commit, how many pairs it holds, and how many levels
// its tree has.
#[derive(Clone, Copy, PartialEq, Eq, Debug)]
pub struct Summary {
    pub commit: u64,
    pub pairs: u32,
    pub levels: u8,
}

impl From<Meta> for Summary {
    ghost from_gives = { λ m r. r ≡ summary_of m };

    fn from(meta: Meta) -> Summary {
        Summary {
            commit: meta.commit,
            pairs: meta.pairs,
            levels: meta.levels,
        }
    }
}
