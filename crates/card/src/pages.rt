// `card pages`: a line for each page of a card.
use crate::failure::Failure;
use crate::files::load;
use crate::status::Status;
use device::{PAGE_SIZE, Reader};
use disks::Image;
use survey::{Content, Row, Tree, newest};

// What is said of a page. `commit` is the number of the newest commit.
pub fn row(
    image: &mut Image,
    page: u32,
    commit: Option<u64>,
    tree: Option<&Tree>,
) -> anyhow::Result<Row> {
    let mut bytes = [0; PAGE_SIZE];
    image.read(page, &mut bytes)?;
    let content = Content::read(&bytes, page, image.pages());
    Ok(Row::new(page, content, commit, tree))
}

fn show_pages(rt: &HostRuntime, image: &mut Image, tree: Option<&Tree>) -> anyhow::Result<()> {
    let commit = newest(image)?.map(|meta| meta.commit);
    for page in 0..image.pages() {
        println!(rt; "{}", row(image, page, commit, tree)?)?;
    }
    Ok(())
}

// Of a card that is not sound no tree is known, and the line of its fault comes first.
fn show_card(rt: &HostRuntime, image: &mut Image) -> anyhow::Result<Status> {
    match Tree::of(image) {
        Ok(tree) => {
            show_pages(rt, image, Some(&tree))?;
            Ok(Status::Fine)
        }
        Err(fault) => {
            println!(rt; "{fault}")?;
            show_pages(rt, image, None)?;
            Ok(Status::Unsound)
        }
    }
}

pub fn show<'a>(rt: &HostRuntime, file: &'a str) -> Result<Status, Failure<'a>> {
    let mut image = load(rt, file)?;
    Ok(show_card(rt, &mut image)?)
}
