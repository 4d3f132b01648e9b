ghost use Rattle.std.specs.Prelude.{◌≡◌, Decides};
ghost use Rattle.meta.specs.Layout.{meta_in};
ghost use Rattle.meta.specs.Test.{read_meta};
ghost use Rattle.meta.specs.Shape.{Shaped, Good};

use crate::{Meta, VERSION};
use checksum::{Kind, is_sealed};
use device::Page;

impl Meta {
    // What the bytes say if they pass the meta test. They stand in page `at` of a device with so many pages.
    pub fn read(bytes: &Page, at: u32, pages: u32) -> Option<Meta>
        ensures { result ≡ read_meta at pages bytes.now }
    {
        let meta = fields(bytes);
        let passes = is_shaped(bytes) && is_sealed(bytes) && meta.is_good(at, pages);
        passes.then_some(meta)
    }

    // Whether the numbers are such as a meta page in this place may say.
    fn is_good(&self, at: u32, pages: u32) -> bool
        ensures { Decides result (Good at pages self.now) }
    {
        self.pages == pages
            && (2..pages).contains(&self.root)
            && (1..=7).contains(&self.levels)
            && self.commit % 2 == u64::from(at)
    }
}

// Whether the bytes that hold no number are those of a meta page.
fn is_shaped(bytes: &Page) -> bool
    ensures { Decides result (Shaped bytes.now) }
{
    bytes[0] == Kind::Meta.into()
        && bytes[1] == VERSION
        && bytes[2] == 0
        && bytes[3] == 0
        && bytes[29..].iter().all(|b| *b == 0)
}

// What the bytes say, whatever they are.
fn fields(bytes: &Page) -> Meta
    ensures { result ≡ meta_in bytes.now }
{
    Meta {
        pages: u32::from_le_bytes(bytes[4..8].try_into().unwrap()),
        root: u32::from_le_bytes(bytes[8..12].try_into().unwrap()),
        commit: u64::from_le_bytes(bytes[16..24].try_into().unwrap()),
        pairs: u32::from_le_bytes(bytes[24..28].try_into().unwrap()),
        levels: bytes[28],
    }
}
