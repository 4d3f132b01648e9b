// The files that hold images.
use crate::failure::Failure;
use anyhow::{Context, bail};
use disks::Image;
use std::fs::{self, File, Files, OpenFile, Permissions};
use std::io::{self, ErrorKind, Write};
use std::path::Path;

fn image_in(rt: &HostRuntime, file: &str) -> anyhow::Result<Image> {
    Ok(Image::new(fs::read(rt, file)?)?)
}

// The image in a file.
pub fn load<'a>(rt: &HostRuntime, file: &'a str) -> Result<Image, Failure<'a>> {
    image_in(rt, file).map_err(|error| Failure::with(file, error))
}

// The permissions of the file of this name, if there is one. What is there and no regular file, as a folder, a symbolic link or
// a device, is refused: a new card does not take its place.
fn permissions_of(rt: &impl Files, name: &str) -> anyhow::Result<Option<Permissions>> {
    match fs::symlink_metadata(rt, name) {
        Ok(found) if found.is_file() => Ok(Some(found.permissions())),
        Ok(_) => bail!("not a regular file"),
        Err(error) if error.kind() == ErrorKind::NotFound => Ok(None),
        Err(error) => Err(error.into()),
    }
}

// Makes a file hold these bytes, and the permissions if any are given, and makes that durable.
fn fill<F: OpenFile + Write>(
    file: &mut F,
    bytes: &[u8],
    permissions: Option<Permissions>,
) -> anyhow::Result<()> {
    if let Some(permissions) = permissions {
        file.set_permissions(permissions)?;
    }
    file.write_all(bytes)?;
    Ok(file.sync_all()?)
}

// Gives a file that is whole its name. A link is refused where there is a file of that name, whoever made it when.
fn publish(rt: &impl Files, draft: &str, name: &str, replaces: bool) -> anyhow::Result<()> {
    if replaces {
        return Ok(fs::rename(rt, draft, name)?);
    }
    match fs::hard_link(rt, draft, name) {
        Err(error) if error.kind() == ErrorKind::AlreadyExists => {
            Err(error).context("a file is there already, and stays without --replace")
        }
        linked => Ok(linked?),
    }
}

// Removes the draft of a card that is not made. If that is refused, too, the error tells of it.
fn discard(rt: &impl Files, draft: &str, error: anyhow::Error) -> anyhow::Error {
    match fs::remove_file(rt, draft) {
        Ok(()) => error,
        Err(refusal) => error.context(format_args!("not made, and its draft stays ({refusal})")),
    }
}

// Makes the names in a file's folder durable.
fn sync_folder(rt: &impl Files, file: &str) -> io::Result<()> {
    let folder = Path::new(file)
        .parent()
        .filter(|folder| !folder.as_str().is_empty())
        .unwrap_or(Path::new("."));
    File::open(rt, folder)?.sync_all()
}

// What is left to do for a file that has its name; after a link, the draft is a second name of it. Both steps are tried.
fn finish(rt: &impl Files, draft: &str, name: &str, replaces: bool) -> anyhow::Result<()> {
    let removed = if replaces {
        Ok(())
    } else {
        fs::remove_file(rt, draft)
    };
    let synced = sync_folder(rt, name);
    removed.context("the card is made, but its draft stays")?;
    synced.context("the card is made, but its name may be lost if power fails")
}

// Makes a file with these bytes. It is written whole under another name first, and then gets its own, so that there never
// is a part of it under that. A file that is there is replaced only if `replaces`, and its permissions are kept. If this
// fails, what was there stays, unless the error says that the card is made.
pub fn save<R: Files + AllocGlobal>(
    rt: &R,
    name: &str,
    bytes: &[u8],
    replaces: bool,
) -> anyhow::Result<()> {
    let permissions = permissions_of(rt, name)?;
    let draft = format!(in rt.alloc(); "{name}.new")?;
    let mut file = File::create_new(rt, &draft).context(
        "its draft, which has the same name with .new, cannot be made",
    )?;
    let filled = fill(&mut file, bytes, permissions);
    match filled.and_then(|()| publish(rt, &draft, name, replaces)) {
        Ok(()) => finish(rt, &draft, name, replaces),
        Err(error) => Err(discard(rt, &draft, error)),
    }
}
