// The images that `card format` makes.
use crate::formatting::{format, new_image};
use crate::status::Status;
use crate::tests::folder::{clear, names};
use crate::words::NewCard;
use checksum::crc32;
use disks::Image;
use std::fs;
use std::test::Fail;
use survey::Verdict;

// From docs/FORMAT.md alone: `python3 tools/make_images.py --new PAGES` prints the CRC-32, by zlib, of such an image.
const IMAGES: [(u32, u32); 3] = [(16, 0xef67276a), (17, 0x4070eea4), (1024, 0x3a3cc87f)];

#[test]
fn bytes_of_new_cards(rt: HostRuntime) -> Result<(), Fail> {
    for (pages, sum) in IMAGES {
        let bytes = new_image(rt.alloc(), pages)?;
        assert_eq!(rt; bytes.len(), pages as usize * 512);
        assert_eq!(rt; crc32(&bytes), sum);
    }
    Ok(())
}

#[test]
fn sizes_that_no_card_has(rt: HostRuntime) -> Result<(), Fail> {
    clear(&rt, "card_sizes")?;
    for pages in [0, 15, 1025, u32::MAX] {
        let card = NewCard {
            file: "card_sizes/a.img",
            pages,
            replaces: true,
        };
        let Err(failure) = format(&rt, &card) else {
            return Err("there is such a card".into());
        };
        assert_eq!(rt;
            failure.to_string(rt.alloc())?.as_str(),
            "card_sizes/a.img: fault 11: the number of pages is not 16 to 1024"
        );
    }
    assert_eq!(rt; names(&rt, "card_sizes")?.as_str(), "");
    fs::remove_dir_all(&rt, "card_sizes")?;
    Ok(())
}

#[test]
fn a_new_card_is_sound(rt: HostRuntime) -> Result<(), Fail> {
    clear(&rt, "card_new")?;
    let card = NewCard {
        file: "card_new/a.img",
        pages: 16,
        replaces: false,
    };
    let Ok(status) = format(&rt, &card) else {
        return Err("it is not made".into());
    };
    assert_eq!(rt; status, Status::Fine);
    let mut image = Image::new(fs::read(&rt, card.file)?)?;
    let line = Verdict::of(&mut image).to_string(rt.alloc())?;
    assert_eq!(rt; line.as_str(), "sound: commit 0, pairs 0, levels 1");
    assert_eq!(rt; names(&rt, "card_new")?.as_str(), "a.img ");
    fs::remove_dir_all(&rt, "card_new")?;
    Ok(())
}
