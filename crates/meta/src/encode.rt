ghost use Rattle.std.specs.Prelude.{◌≡◌};
ghost use Rattle.meta.specs.Layout.{meta_page};

use crate::{Meta, VERSION};
use checksum::{Kind, seal};
use device::{PAGE_SIZE, Page};

impl Meta {
    // The page of this meta, with its checksum.
    pub fn encode(&self) -> Page
        ensures { result ≡ meta_page self.now }
    {
        let mut page = [0; PAGE_SIZE];
        page[0] = Kind::Meta.into();
        page[1] = VERSION;
        page[4..8].copy_from_slice(&self.pages.to_le_bytes());
        page[8..12].copy_from_slice(&self.root.to_le_bytes());
        page[16..24].copy_from_slice(&self.commit.to_le_bytes());
        page[24..28].copy_from_slice(&self.pairs.to_le_bytes());
        page[28] = self.levels;
        seal(&mut page);
        page
    }
}
