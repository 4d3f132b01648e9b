// One pair out of the bytes of a leaf, whatever their checksum.
ghost use Rattle.std.specs.Prelude.{◌≡◌};
ghost use Rattle.std.specs.Option.{option_map};
ghost use Rattle.page.specs.Pairs.{seen, pair_seen, LiesIn};

use crate::bytes::edge;
use crate::cell::{Cell, LeafCell};
use crate::cells::Cells;
use device::Page;

// A pair of a leaf page, as parts of the page's bytes.
#[derive(Clone, Copy)]
pub struct PairParts<'a> {
    pub key: &'a [u8],
    pub value: &'a [u8],
    // where they begin in the page
    pub key_offset: usize,
    pub value_offset: usize,
}

// Pair `cell` of the leaf page that the bytes are, its checksum left out: none, if they are no such page by kind,
// layout and rising keys, or have no cell of that number.
pub fn pair_in(bytes: &Page, cell: usize) -> Option<PairParts<'_>>
    ensures pair { option_map seen result ≡ pair_seen cell bytes.now }
    ensures parts { LiesIn bytes.now result }
{
    let Ok(cells) = Cells::<LeafCell>::read(bytes) else {
        return None;
    };
    let body = cells.cell(cell)?;
    let key = body.key();
    let value = body.value();
    let key_offset = edge(bytes, cell + 1) + <LeafCell as Cell>::HEAD;
    let value_offset = key_offset + key.len();
    Some(PairParts {
        key,
        value,
        key_offset,
        value_offset,
    })
}
