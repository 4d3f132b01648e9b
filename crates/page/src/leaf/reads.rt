ghost use Rattle.std.specs.Prelude.{◌≡◌};
ghost use Rattle.std.specs.Option.{option_map};
ghost use Rattle.page.specs.Places.{up_to};
ghost use Rattle.page.specs.Views.{leaf_pairs, key_of, key_of_place, value_of_place, FindsKey, SeeksKey};

use crate::cell::LeafCell;
use crate::cell_page::CellPage;

impl CellPage<LeafCell> {
    // The key of pair i, if there is one.
    pub fn key(&self, i: usize) -> Option<&[u8]>
        ensures { option_map (λ x. x.now) result ≡ key_of_place i (leaf_pairs self.now) }
    {
        self.cell_key(i)
    }

    // The value of pair i, if there is one.
    pub fn value(&self, i: usize) -> Option<&[u8]>
        ensures { option_map (λ x. x.now) result ≡ value_of_place i (leaf_pairs self.now) }
    {
        Some(self.cells().cell(i)?.value())
    }

    // The place of the first pair with a greater key.
    pub fn above(&self, key: &[u8]) -> usize
        ensures { result ≡ up_to key_of key.now (leaf_pairs self.now) }
    {
        self.cells().place_above(key)
    }

    // The place of the pair with this key, or else that of the first pair with a greater one.
    pub(crate) fn seek(&self, key: &[u8]) -> Result<usize, usize>
        ensures { SeeksKey (leaf_pairs self.now) key.now result }
    {
        let cells = self.cells();
        let above = cells.place_above(key);
        let Some(i) = above.checked_sub(1) else {
            return Err(above);
        };
        if cells.key(i) == key {
            Ok(i)
        } else {
            Err(above)
        }
    }

    // The place of the pair with this key.
    pub fn find(&self, key: &[u8]) -> Option<usize>
        ensures { FindsKey (leaf_pairs self.now) key.now result }
    {
        self.seek(key).ok()
    }
}
