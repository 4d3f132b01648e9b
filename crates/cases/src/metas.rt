// Meta pages; their checksums were computed by another program.
use meta::{Meta, newer};

const FIRST: Meta = Meta {
    pages: 16,
    root: 2,
    commit: 0,
    pairs: 0,
    levels: 1,
};

const SEVENTH: Meta = Meta {
    pages: 1024,
    root: 1023,
    commit: 7,
    pairs: 300,
    levels: 7,
};

#[test]
fn bytes_of_metas(rt: HostRuntime) {
    let bytes = FIRST.encode();
    assert!(rt; &bytes[0..12] == [3, 1, 0, 0, 16, 0, 0, 0, 2, 0, 0, 0].as_slice());
    assert!(rt; &bytes[12..16] == [0xd2, 0x2a, 0x92, 0x94].as_slice());
    assert_eq!(rt; bytes[28], 1);
    let bytes = SEVENTH.encode();
    assert!(rt; &bytes[4..16] == [0, 4, 0, 0, 0xff, 3, 0, 0, 0xe5, 0x8d, 0x58, 0x2d].as_slice());
    assert!(rt; &bytes[16..29] == [7, 0, 0, 0, 0, 0, 0, 0, 0x2c, 1, 0, 0, 7].as_slice());
}

#[test]
fn metas_are_read_in_their_place(rt: HostRuntime) {
    let bytes = SEVENTH.encode();
    assert_eq!(rt; Meta::read(&bytes, 1, 1024), Some(SEVENTH));
    assert_eq!(rt; Meta::read(&bytes, 0, 1024), None);
    assert_eq!(rt; Meta::read(&bytes, 1, 1023), None);
    assert_eq!(rt; Meta::read(&[0; 512], 0, 16), None);
}

#[test]
fn metas_with_wrong_numbers_are_not_read(rt: HostRuntime) {
    assert_eq!(rt; Meta::read(&FIRST.encode(), 0, 16), Some(FIRST));
    let low = Meta { root: 1, ..FIRST };
    assert_eq!(rt; Meta::read(&low.encode(), 0, 16), None);
    let high = Meta { root: 16, ..FIRST };
    assert_eq!(rt; Meta::read(&high.encode(), 0, 16), None);
    let flat = Meta { levels: 0, ..FIRST };
    assert_eq!(rt; Meta::read(&flat.encode(), 0, 16), None);
    let tall = Meta { levels: 8, ..FIRST };
    assert_eq!(rt; Meta::read(&tall.encode(), 0, 16), None);
}

#[test]
fn the_newer_meta_counts(rt: HostRuntime) {
    let even = Meta {
        commit: 6,
        ..SEVENTH
    };
    assert_eq!(rt; newer(Some(even), Some(SEVENTH)), Some(SEVENTH));
    assert_eq!(rt; newer(Some(even), None), Some(even));
    assert_eq!(rt; newer(None, None), None);
}
