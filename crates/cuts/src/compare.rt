ghost use Rattle.std.specs.Prelude.{◌≡◌, ◌≤◌, length, take};
ghost use Rattle.cuts.specs.Keys.{key<, separator};

// Whether the key `a` comes before the key `b`. It stays beside `<` since its contract ties std's order of byte
// slices to `key<`, once for all who compare keys.
pub fn key_less(a: &[u8], b: &[u8]) -> bool
    ensures { result ≡ key< a.now b.now }
{
    a < b
}

// How many bytes of `right` make the separator between `left` and `right`: those that both begin with, and one
// more where there is one.
pub fn separator_len(left: &[u8], right: &[u8]) -> usize
    ensures within { result ≤ length right.now }
    ensures prefix { take result right.now ≡ separator left.now right.now }
{
    let shared = left.iter().zip(right).take_while(|(a, b)| a == b).count();
    right.len().min(shared + 1)
}
