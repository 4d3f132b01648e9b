// Get and after: the leaf page goes into the caller's buffer, and the number of the cell is the answer. Each tests what it
// refuses before it reads in its own text, so that it reads as the rule that it follows; the rest is one function.
ghost use Rattle.std.specs.Prelude.{◌≡◌, true, List, Ok, Option, OnErr};
ghost use Rattle.device.specs.Medium.{zeros};
ghost use Rattle.cuts.specs.Nodes.{Pair};
ghost use Rattle.tree.specs.Maps.{first_above};
ghost use Rattle.search.specs.Finding.{pair_with};
ghost use Rattle.store.specs.Reading.{is_key, is_short, Seeks, ReadsOut};
ghost use Rattle.store.specs.States.{version_in};

use crate::store::Store;
use device::{Device, PAGE_SIZE, Page};
use faults::StoreFault;
use meta::Meta;
use page::PageFault;
use search::{Place, Tree};

impl<D: Device> Store<D> {
    // The place that the search finds in the tree of the version that is read: its leaf, in the buffer, and the cell.
    fn look_up<F>(&mut self, meta: Meta, search: F, buffer: &mut Page) -> Result<usize, StoreFault>
    where
        F: FnOnce(&mut D, Tree) -> Result<Option<Place>, PageFault>,
        requires callable { F.IsAlwaysCallable search }
        requires version { Ok meta ≡ version_in self.old.state }
        requires clear { buffer.old ≡ zeros }
        ensures cleared { OnErr result (buffer.new ≡ zeros) }
        ensures model { (want : List Pair → Option Pair) → Seeks D.Reader (F.post search) want → ReadsOut D.Reader self.old self.new true want result buffer.new }
    {
        let tree = Tree {
            root: meta.root,
            height: meta.levels.saturating_sub(1),
        };
        let found = search(&mut self.device, tree);
        self.state.shut_if_off(&found);
        let Some(place) = found? else {
            return Err(StoreFault::Absent);
        };
        *buffer = *place.leaf.bytes();
        Ok(place.cell)
    }

    // The place of the pair with this key: its leaf, in the buffer, and the cell.
    pub fn get(&mut self, key: &[u8], buffer: &mut Page) -> Result<usize, StoreFault>
        ensures cleared { OnErr result (buffer.new ≡ zeros) }
        ensures model { ReadsOut D.Reader self.old self.new (is_key key.now) (pair_with key.now) result buffer.new }
    {
        *buffer = [0; PAGE_SIZE]; // and so it stays, whatever is refused
        let meta = self.state.version()?;
        let 1..=64 = key.len() else {
            return Err(StoreFault::KeyLength);
        };
        self.look_up(meta, |device, tree| tree.find(device, key), buffer)
    }

    // The place of the first pair with a greater key. The key may be empty.
    pub fn after(&mut self, key: &[u8], buffer: &mut Page) -> Result<usize, StoreFault>
        ensures cleared { OnErr result (buffer.new ≡ zeros) }
        ensures model { ReadsOut D.Reader self.old self.new (is_short key.now) (first_above key.now) result buffer.new }
    {
        *buffer = [0; PAGE_SIZE]; // as in get
        let meta = self.state.version()?;
        let 0..=64 = key.len() else {
            return Err(StoreFault::KeyLength);
        };
        self.look_up(meta, |device, tree| tree.after(device, key), buffer)
    }
}
