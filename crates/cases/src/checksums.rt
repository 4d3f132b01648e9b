// Published values of CRC-32.
use checksum::{crc32, is_sealed, seal};
use device::PAGE_SIZE;

#[test]
fn published_values(rt: HostRuntime) {
    assert_eq!(rt; crc32(b""), 0);
    assert_eq!(rt; crc32(b"a"), 0xe8b7_be43);
    assert_eq!(rt; crc32(b"abc"), 0x3524_41c2);
    assert_eq!(rt; crc32(b"123456789"), 0xcbf4_3926);
    assert_eq!(rt; crc32(b"message digest"), 0x2015_9d7f);
    assert_eq!(rt;
        crc32(b"The quick brown fox jumps over the lazy dog"),
        0x414f_a339
    );
    assert_eq!(rt; crc32(&[0; 32]), 0x190a_55ad);
    assert_eq!(rt; crc32(&[255; 32]), 0xff6c_ab0b);
}

// A page is sealed by its checksum, whatever stood in its place, and no longer when one byte is turned.
#[test]
fn one_byte_breaks_the_seal(rt: HostRuntime) {
    let mut page = [0x5a; PAGE_SIZE];
    assert!(rt; !is_sealed(&page));
    seal(&mut page);
    assert!(rt; is_sealed(&page));
    for i in 0..PAGE_SIZE {
        page[i] ^= 0x10;
        assert!(rt; !is_sealed(&page));
        page[i] ^= 0x10;
    }
    assert!(rt; is_sealed(&page));
}
