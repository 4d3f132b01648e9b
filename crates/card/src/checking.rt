// `card check`: a line for each card.
use crate::files::load;
use crate::status::Status;
use disks::Image;
use std::io;
use survey::Verdict;

fn show(rt: &HostRuntime, file: &str, image: &mut Image, is_named: bool) -> io::Result<Status> {
    let verdict = Verdict::of(image);
    if is_named {
        println!(rt; "{file}: {verdict}")?;
    } else {
        println!(rt; "{verdict}")?;
    }
    Ok(if verdict.is_sound() {
        Status::Fine
    } else {
        Status::Unsound
    })
}

// Each line names its file, if there is more than one. A file that cannot be read is told of, and the others are looked at.
pub fn check(rt: &HostRuntime, files: &[&str]) -> anyhow::Result<Status> {
    let is_named = files.len() > 1;
    let mut worst = Status::Fine;
    for file in files {
        let status = match load(rt, file) {
            Ok(mut image) => show(rt, file, &mut image, is_named)?,
            Err(failure) => failure.tell(rt),
        };
        worst = worst.max(status);
    }
    Ok(worst)
}
