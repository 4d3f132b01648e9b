ghost use Rattle.std.specs.Prelude.{◌≡◌, ◌+◌, ◌≤◌, [], ◌++◌, length};
ghost use Rattle.cuts.specs.Keys.{KeyFits};
ghost use Rattle.page.specs.Kinds.{leaf_body, branch_body};
ghost use Rattle.page.specs.Shorts.{held};

use crate::short::Short;

impl Short {
    pub(crate) fn new() -> Self
        ensures { held result ≡ [] }
    {
        Short {
            bytes: [0; 194],
            len: 0,
        }
    }

    // Some bytes more, for which there is room.
    pub(crate) fn push(&mut self, more: &[u8])
        requires { length (held self.old) + length more.now ≤ 194 }
        ensures after { held self.new ≡ held self.old ++ more.now }
        ensures len { length (held self.new) ≡ length (held self.old) + length more.now }
    {
        let end = self.len + more.len();
        self.bytes[self.len..end].copy_from_slice(more);
        self.len = end;
    }

    pub fn as_slice(&self) -> &[u8]
        ensures { result.now ≡ held self.now }
    {
        &self.bytes[0..self.len]
    }

    // The cell of a leaf. Its lengths fit a byte, by the contract.
    pub(crate) fn leaf_cell(key: &[u8], value: &[u8]) -> Self
        requires key { KeyFits key.now }
        requires value { length value.now ≤ 128 }
        ensures { held result ≡ leaf_body (record { key = key.entry.now; value = value.now }) }
    {
        let mut cell = Short::new();
        cell.push(&[key.len() as u8, value.len() as u8]);
        cell.push(key);
        cell.push(value);
        cell
    }

    // The cell of a branch. The separator's length fits a byte, by the contract.
    pub(crate) fn branch_cell(separator: &[u8], child: u32) -> Self
        requires { KeyFits separator.now }
        ensures { held result ≡ branch_body (record { separator = separator.entry.now; child = child }) }
    {
        let mut cell = Short::new();
        cell.push(&[separator.len() as u8, 0]);
        cell.push(&child.to_le_bytes());
        cell.push(separator);
        cell
    }
}
