// Keys of the shortest and the longest length, and one more or less, and what the caller's page holds afterwards: before, in
// and after a transaction.
use crate::asking::Read;
use crate::makers::{LONG, with};
use device::Device;
use disks::WriteThrough;
use faults::StoreFault;
use meta::Meta;
use page::LeafPage;
use std::alloc::Global;
use std::process::Abort;
use std::test::Fail;
use store::{Answer, Call, Store};

// Commit 4: a leaf with two pairs.
const FOURTH: Meta = Meta {
    pages: 16,
    root: 5,
    commit: 4,
    pairs: 2,
    levels: 1,
};

// A key, and the number of its cell.
type Row<'a> = (&'a [u8], Result<usize, StoreFault>);

fn two_pairs() -> Result<LeafPage, Fail> {
    with(
        &with(&LeafPage::empty(), b"key", b"value")?,
        &LONG[..64],
        b"",
    )
}

fn opened(heap: Global, leaf: &LeafPage) -> Result<Store<WriteThrough>, Fail> {
    let mut disk = WriteThrough::new(heap, 16, 0)?;
    disk.write(0, &FOURTH.encode())?;
    disk.write(5, leaf.bytes())?;
    let mut store = Store::new(disk);
    store.open()?;
    Ok(store)
}

// The page is the leaf if the read is answered, and else all zero.
fn check_rows(
    rt: &(impl Abort + AllocGlobal),
    store: &mut Store<WriteThrough>,
    leaf: &LeafPage,
    read: Read,
    rows: &[Row],
) -> Result<(), Fail> {
    for (key, answer) in rows {
        let page = if answer.is_ok() {
            *leaf.bytes()
        } else {
            [0; 512]
        };
        assert_eq!(rt; read.ask(store, key), (*answer, page));
        let call = read.call(rt.alloc(), key)?;
        assert_eq!(rt; store.act(&call), answer.map(Answer::Cell));
    }
    Ok(())
}

fn check_reads(rt: &(impl Abort + AllocGlobal), read: Read, rows: &[Row]) -> Result<(), Fail> {
    let leaf = two_pairs()?;
    let mut store = opened(rt.alloc(), &leaf)?;
    check_rows(rt, &mut store, &leaf, read, rows)?;
    assert_eq!(rt; store.act(&Call::Begin), Ok(Answer::Done));
    check_rows(rt, &mut store, &leaf, read, rows)?;
    assert_eq!(rt; store.act(&Call::Commit), Ok(Answer::Number(5)));
    check_rows(rt, &mut store, &leaf, read, rows)
}

#[test]
fn get_takes_keys_of_1_to_64_bytes(rt: HostRuntime) -> Result<(), Fail> {
    check_reads(
        &rt,
        Read::Get,
        &[
            (&LONG[..0], Err(StoreFault::KeyLength)),
            (&LONG[..1], Err(StoreFault::Absent)),
            (&LONG[..64], Ok(1)),
            (&LONG[..65], Err(StoreFault::KeyLength)),
            (b"key", Ok(0)),
        ],
    )
}

#[test]
fn after_takes_keys_of_0_to_64_bytes(rt: HostRuntime) -> Result<(), Fail> {
    check_reads(
        &rt,
        Read::After,
        &[
            (&LONG[..0], Ok(0)),
            (b"key", Ok(1)),
            (&LONG[..63], Ok(1)),
            (&LONG[..64], Err(StoreFault::Absent)),
            (&LONG[..65], Err(StoreFault::KeyLength)),
        ],
    )
}
