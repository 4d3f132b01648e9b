ghost use Rattle.std.specs.Prelude.{◌≡◌, ◌^◌, ◌<◌};
ghost use Rattle.checksum.specs.Sealed.{checksum_of, sealed, is_sealed};

use crate::crc::{ALL_BITS, update};
use device::Page;

// The checksum that a page should have, whatever stands in its place.
pub fn checksum(page: &Page) -> u32
    ensures { result ≡ checksum_of page.now }
{
    let head = update(ALL_BITS, &page[0..12]);
    let blank = update(head, &[0; 4]);
    update(blank, &page[16..]) ^ ALL_BITS
}

// Writes the checksum to its place.
pub fn seal(page: &mut Page)
    ensures after { page.new ≡ sealed page.old }
    ensures word { checksum_of page.old < 2 ^ 32 }
{
    let sum = checksum(page);
    page[12..16].copy_from_slice(&sum.to_le_bytes());
}

// Whether the checksum is right.
pub fn is_sealed(page: &Page) -> bool
    ensures { result ≡ is_sealed page.now }
{
    page[12..16] == checksum(page).to_le_bytes()[..]
}
