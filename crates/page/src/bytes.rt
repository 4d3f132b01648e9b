// Numbers in the bytes of a page.
ghost use Rattle.std.specs.Prelude.{◌≡◌, ◌+◌, ◌^◌, ◌<◌, ◌≤◌, length};
ghost use Rattle.checksum.specs.Bytes.{le16, over, word16};
ghost use Rattle.page.specs.Layout.{cells_of, left_of, edge_at};

use device::{PAGE_SIZE, Page};

pub(crate) fn read16(page: &Page, at: usize) -> usize
    requires { at + 2 ≤ 512 }
    ensures { result ≡ word16 page.now at }
{
    usize::from(u16::from_le_bytes(page[at..at + 2].try_into().unwrap()))
}

// By `as`, since the contract says that the value fits.
pub(crate) fn write16(page: &mut Page, at: usize, value: usize)
    requires within { at + 2 ≤ 512 }
    requires small { value < 2 ^ 16 }
    ensures { page.new ≡ over at (le16 value) page.old }
{
    put(page, at, &(value as u16).to_le_bytes());
}

pub(crate) fn put(page: &mut Page, at: usize, bytes: &[u8])
    requires { at + length bytes.now ≤ 512 }
    ensures { page.new ≡ over at bytes.now page.old }
{
    page[at..at + bytes.len()].copy_from_slice(bytes);
}

pub(crate) fn count_of(page: &Page) -> usize
    ensures { result ≡ length (cells_of page.now) }
{
    read16(page, 2)
}

pub(crate) fn leftmost_of(page: &Page) -> u32
    ensures { result ≡ left_of page.now }
{
    u32::from_le_bytes(page[8..12].try_into().unwrap())
}

// Where cell i ends, which is where the cell before it begins.
pub(crate) fn edge(page: &Page, i: usize) -> usize
    requires { i ≤ 248 }
    ensures { result ≡ edge_at page.now i }
{
    if i == 0 {
        PAGE_SIZE
    } else {
        read16(page, 14 + 2 * i)
    }
}
