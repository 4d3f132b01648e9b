ghost use Rattle.std.specs.Prelude.{◌≤◌};

mod makes;

// Bytes held by value, as many as the largest cell has: a cell that is in no page yet, or a separator. An array with a
// length, since the store needs no heap; the library's vector of fixed capacity can't be copied as this is, and takes a
// slice only by a call that may refuse it.
#[derive(Clone, Copy)]
pub struct Short {
    bytes: [u8; 194],
    len: usize,
    ghost within: { len ≤ 194 },
}
