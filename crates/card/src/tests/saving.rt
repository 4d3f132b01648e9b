// What becomes of the files when a card is made, or is not.
use crate::files::save;
use crate::tests::folder::{clear, names};
use crate::tests::refusing::{Refused, Refusing};
use std::fs::{self, Files, Permissions};
use std::os::unix::fs::{PermissionsExt, symlink};
use std::test::Fail;

const CARD: &[u8] = b"card";

const TRIPS: &[u8] = b"trips";

// Why a card is not made, or not without fault.
fn refusal<R: Files + AllocGlobal>(rt: &R, file: &str, replaces: bool) -> Result<String, Fail> {
    match save(rt, file, CARD, replaces) {
        Ok(()) => Err("it is made".into()),
        Err(error) => Ok(format!(in rt.alloc(); "{error:#}")?),
    }
}

#[test]
fn a_file_that_is_there_stays(rt: HostRuntime) -> Result<(), Fail> {
    clear(&rt, "card_there")?;
    fs::write(&rt, "card_there/a.img", TRIPS)?;
    assert_eq!(rt;
        refusal(&rt, "card_there/a.img", false)?.as_str(),
        "a file is there already, and stays without --replace: File exists (os error 17)"
    );
    assert_eq!(rt; fs::read(&rt, "card_there/a.img")?.as_slice(), TRIPS);
    assert_eq!(rt; names(&rt, "card_there")?.as_str(), "a.img ");
    fs::remove_dir_all(&rt, "card_there")?;
    Ok(())
}

#[test]
fn a_file_is_replaced_if_asked(rt: HostRuntime) -> Result<(), Fail> {
    clear(&rt, "card_replaced")?;
    fs::write(&rt, "card_replaced/a.img", TRIPS)?;
    fs::set_permissions(&rt, "card_replaced/a.img", Permissions::from_mode(0o640))?;
    save(&rt, "card_replaced/a.img", CARD, true)?;
    assert_eq!(rt; fs::read(&rt, "card_replaced/a.img")?.as_slice(), CARD);
    let mode = fs::metadata(&rt, "card_replaced/a.img")?
        .permissions()
        .mode();
    assert_eq!(rt; mode & 0o777, 0o640);
    assert_eq!(rt; names(&rt, "card_replaced")?.as_str(), "a.img ");
    fs::remove_dir_all(&rt, "card_replaced")?;
    Ok(())
}

// A folder is none, nor is a link, be it to a file or to nothing. (Nor is a device, but only root can make one.)
#[test]
fn only_a_regular_file_is_replaced(rt: HostRuntime) -> Result<(), Fail> {
    clear(&rt, "card_others")?;
    fs::write(&rt, "card_others/trips", TRIPS)?;
    fs::create_dir(&rt, "card_others/folder")?;
    symlink(&rt, "trips", "card_others/link")?;
    symlink(&rt, "nothing", "card_others/loose")?;
    for file in [
        "card_others/folder",
        "card_others/link",
        "card_others/loose",
    ] {
        for replaces in [false, true] {
            let words = refusal(&rt, file, replaces)?;
            assert_eq!(rt; words.as_str(), "not a regular file", "{file}");
        }
    }
    assert_eq!(rt;
        names(&rt, "card_others")?.as_str(),
        "folder link loose trips "
    );
    assert!(rt; fs::symlink_metadata(&rt, "card_others/link")?.is_symlink());
    assert_eq!(rt; fs::read(&rt, "card_others/trips")?.as_slice(), TRIPS);
    fs::remove_dir_all(&rt, "card_others")?;
    Ok(())
}

// Its folder has no name to be opened by.
#[test]
fn a_name_without_a_folder(rt: HostRuntime) -> Result<(), Fail> {
    let _ = fs::remove_file(&rt, "card_alone.img");
    save(&rt, "card_alone.img", CARD, false)?;
    assert_eq!(rt; fs::read(&rt, "card_alone.img")?.as_slice(), CARD);
    fs::remove_file(&rt, "card_alone.img")?;
    Ok(())
}

// A draft may be another's, at work now or ended early: it is not touched.
#[test]
fn a_draft_that_is_there_stays(rt: HostRuntime) -> Result<(), Fail> {
    clear(&rt, "card_draft")?;
    fs::write(&rt, "card_draft/a.img.new", TRIPS)?;
    for replaces in [false, true] {
        assert_eq!(rt;
            refusal(&rt, "card_draft/a.img", replaces)?.as_str(),
            "its draft, which has the same name with .new, cannot be made: File exists (os error 17)"
        );
    }
    assert_eq!(rt; fs::read(&rt, "card_draft/a.img.new")?.as_slice(), TRIPS);
    assert_eq!(rt; names(&rt, "card_draft")?.as_str(), "a.img.new ");
    fs::remove_dir_all(&rt, "card_draft")?;
    Ok(())
}

#[test]
fn without_links_the_draft_goes(rt: HostRuntime) -> Result<(), Fail> {
    clear(&rt, "card_links")?;
    let refusing = Refusing {
        rt: &rt,
        refused: Refused::Links,
    };
    let words = refusal(&refusing, "card_links/a.img", false)?;
    assert_eq!(rt; words.as_str(), "unsupported");
    assert_eq!(rt; names(&rt, "card_links")?.as_str(), "");
    save(&refusing, "card_links/a.img", CARD, true)?;
    assert_eq!(rt; names(&rt, "card_links")?.as_str(), "a.img ");
    fs::remove_dir_all(&rt, "card_links")?;
    Ok(())
}

#[test]
fn a_draft_that_stays_is_told(rt: HostRuntime) -> Result<(), Fail> {
    clear(&rt, "card_stays")?;
    let refusing = Refusing {
        rt: &rt,
        refused: Refused::Removals,
    };
    assert_eq!(rt;
        refusal(&refusing, "card_stays/a.img", false)?.as_str(),
        "the card is made, but its draft stays: permission denied"
    );
    assert_eq!(rt; fs::read(&rt, "card_stays/a.img")?.as_slice(), CARD);
    assert_eq!(rt; names(&rt, "card_stays")?.as_str(), "a.img a.img.new ");
    fs::remove_file(&rt, "card_stays/a.img.new")?;
    assert_eq!(rt;
        refusal(&refusing, "card_stays/a.img", false)?.as_str(),
        "not made, and its draft stays (permission denied): a file is there already, and stays \
            without --replace: File exists (os error 17)"
    );
    assert_eq!(rt; names(&rt, "card_stays")?.as_str(), "a.img a.img.new ");
    fs::remove_dir_all(&rt, "card_stays")?;
    Ok(())
}

#[test]
fn a_folder_that_is_not_synced_is_told(rt: HostRuntime) -> Result<(), Fail> {
    clear(&rt, "card_folder")?;
    let refusing = Refusing {
        rt: &rt,
        refused: Refused::OpeningFolders,
    };
    for replaces in [false, true] {
        assert_eq!(rt;
            refusal(&refusing, "card_folder/a.img", replaces)?.as_str(),
            "the card is made, but its name may be lost if power fails: permission denied"
        );
        assert_eq!(rt; fs::read(&rt, "card_folder/a.img")?.as_slice(), CARD);
        assert_eq!(rt; names(&rt, "card_folder")?.as_str(), "a.img ");
    }
    fs::remove_dir_all(&rt, "card_folder")?;
    Ok(())
}
