ghost use Rattle.std.specs.Prelude.{◌≡◌};
ghost use Rattle.std.specs.Int.Bits.{bit_xor};
ghost use Rattle.checksum.specs.Crc.{crc_from, crc_of};

use crate::table::entry;

// The register before the first byte, and what it is turned by after the last.
pub(crate) const ALL_BITS: u32 = 0xffff_ffff;

// The register after some bytes more: one look into the table for each. (The lowest byte of the register is cast by
// `as`, since it fits.)
pub(crate) fn update(register: u32, bytes: &[u8]) -> u32
    ensures { result ≡ crc_from register bytes.now }
{
    bytes
        .iter()
        .fold(register, |r, b| (r >> 8) ^ entry((r % 256) as u8 ^ b))
}

pub fn crc32(bytes: &[u8]) -> u32
    ensures { result ≡ crc_of bytes.now }
{
    update(ALL_BITS, bytes) ^ ALL_BITS
}
