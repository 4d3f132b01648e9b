ghost use Rattle.std.specs.Prelude.{◌≡◌, ◌+◌, drop, slice_index};
ghost use Rattle.checksum.specs.Bytes.{word32};
ghost use Rattle.page.specs.Kinds.{branch_key};
ghost use Rattle.page.specs.Shorts.{held};

use crate::body::Body;
use crate::cell::{BranchCell, Cell, LeafCell};
use crate::short::Short;

impl<'a, C: Cell> Body<'a, C> {
    pub(crate) fn key(&self) -> &'a [u8]
        ensures { result.now ≡ C.rules.key self.now.bytes.now }
    {
        C::key_of(self.bytes)
    }
}

impl<'a> Body<'a, LeafCell> {
    pub(crate) fn value(&self) -> &'a [u8]
        ensures { result.now ≡ drop (2 + slice_index self.now.bytes.now 0) self.now.bytes.now }
    {
        &self.bytes[2 + usize::from(self.bytes[0])..]
    }
}

impl Body<'_, BranchCell> {
    pub(crate) fn child(&self) -> u32
        ensures { result ≡ word32 self.now.bytes.now 2 }
    {
        u32::from_le_bytes(self.bytes[2..6].try_into().unwrap())
    }

    pub(crate) fn separator(&self) -> Short
        ensures { held result ≡ branch_key self.now.bytes.now }
    {
        let mut separator = Short::new();
        separator.push(self.key());
        separator
    }
}
