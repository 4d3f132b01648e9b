ghost use Rattle.std.specs.Prelude.{◌≡◌, []};
ghost use Rattle.page.specs.Growths.{PutsPair, RemovesPair, JoinsLeaves};
ghost use Rattle.page.specs.Views.{leaf_pairs};

use crate::body::Body;
use crate::cell::{LeafCell, is_key_len};
use crate::cell_page::CellPage;
use crate::draft::Draft;
use crate::grown::Grown;
use crate::leaf::LeafPage;
use crate::short::Short;
use std::marker::PhantomData;

impl CellPage<LeafCell> {
    pub fn empty() -> Self
        ensures { leaf_pairs result ≡ [] }
    {
        Draft::<LeafCell>::new(0).finish()
    }

    // The leaf with this pair in it: one page, or two; none, if the key has not 1 to 64 bytes, or the value more
    // than 128. (One none for both, and so in the other edits: no caller tells apart why an edit may not be done.)
    pub fn put(&self, key: &[u8], value: &[u8]) -> Option<Grown<LeafPage>>
        ensures { PutsPair self.now key.now value.now result }
    {
        if !is_key_len(key.len()) || value.len() > 128 {
            return None;
        }
        let cell = Short::leaf_cell(key, value);
        let body = Body {
            bytes: cell.as_slice(),
            kind: PhantomData,
        };
        Some(match self.seek(key) {
            Ok(i) => self.with_cell(i, body, i + 1),
            Err(at) => self.with_cell(at, body, at),
        })
    }

    // The leaf without the pair that has this key; none, if there is no such pair.
    pub fn remove(&self, key: &[u8]) -> Option<LeafPage>
        ensures { RemovesPair self.now key.now result }
    {
        let i = self.find(key)?;
        Some(self.without(i))
    }

    // Two leaves as one, with the pairs of this one first: one page, or two; none, if neither is underfull, or the
    // keys would not rise.
    pub fn join(&self, right: &LeafPage) -> Option<Grown<LeafPage>>
        ensures { JoinsLeaves self.now right.now result }
    {
        if !self.one_is_light(right) {
            return None;
        }
        if !self.precedes(right) {
            return None;
        }
        Some(self.with_all(right))
    }
}
