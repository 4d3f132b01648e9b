// A table for each kind of page.
use anyhow::Context;
use checksum::Kind;
use device::Page;
use meta::Meta;
use page::{BranchPage, LeafPage};

fn text(bytes: &[u8]) -> &str {
    std::str::from_utf8(bytes).unwrap_or("(no text)")
}

fn show_kind(rt: &HostRuntime, name: &str, page: &Page) -> anyhow::Result<()> {
    let byte = page[0];
    println!(rt)?;
    println!(rt; "{name}")?;
    match Kind::try_from(byte) {
        Ok(kind) => println!(rt; "  byte  0      kind            {byte} ({kind})")?,
        Err(_) => println!(rt; "  byte  0      kind            {byte} (none)")?,
    }
    Ok(())
}

fn show_checksum(rt: &HostRuntime, page: &Page) -> anyhow::Result<()> {
    let sum = u32::from_le_bytes(page[12..16].try_into().unwrap());
    println!(rt; "  bytes 12-15  checksum        {sum:08x}")?;
    Ok(())
}

// What leaves and branches have before their cells.
fn show_head(rt: &HostRuntime, name: &str, page: &Page) -> anyhow::Result<()> {
    let cells = u16::from_le_bytes(page[2..4].try_into().unwrap());
    let lowest = u16::from_le_bytes(page[4..6].try_into().unwrap());
    let leftmost = u32::from_le_bytes(page[8..12].try_into().unwrap());
    show_kind(rt, name, page)?;
    println!(rt; "  bytes 2-3    cells           {cells}")?;
    println!(rt; "  bytes 4-5    lowest offset   {lowest}")?;
    println!(rt; "  bytes 8-11   leftmost child  {leftmost}")?;
    show_checksum(rt, page)
}

// A page of cells: what stands before them, and of each cell where it begins and what it says. (The closure prints the cell, so
// that no text has to be made for it, which would need the heap.)
fn show_cells<F: Fn(u16, usize) -> anyhow::Result<()>>(
    rt: &HostRuntime,
    name: &str,
    page: &Page,
    cells: usize,
    show: F,
) -> anyhow::Result<()>
    requires { F.IsAlwaysCallable show }
{
    show_head(rt, name, page)?;
    let (offsets, _) = page[16..].as_chunks::<2>();
    for (i, offset) in offsets.iter().take(cells).enumerate() {
        show(u16::from_le_bytes(*offset), i)?;
    }
    Ok(())
}

pub fn show_leaf(rt: &HostRuntime, name: &str, leaf: &LeafPage) -> anyhow::Result<()> {
    show_cells(rt, name, leaf.bytes(), leaf.len(), |at, i| {
        let key = text(leaf.key(i).context("a key is missing")?);
        let value = text(leaf.value(i).context("a value is missing")?);
        println!(rt; "  cell at {at}: \"{key}\" -> \"{value}\"")?;
        Ok(())
    })
}

pub fn show_branch(rt: &HostRuntime, name: &str, branch: &BranchPage) -> anyhow::Result<()> {
    show_cells(rt, name, branch.bytes(), branch.len(), |at, i| {
        let separator = text(branch.separator(i).context("a separator is missing")?);
        let child = branch
            .child(i.saturating_add(1))
            .context("a child is missing")?;
        println!(rt; "  cell at {at}: keys from \"{separator}\" on -> child {child}")?;
        Ok(())
    })
}

// The meta page `at` of a device of so many pages.
pub fn show_meta(
    rt: &HostRuntime,
    name: &str,
    page: &Page,
    at: u32,
    pages: u32,
) -> anyhow::Result<()> {
    let meta = Meta::read(page, at, pages).context("no meta page")?;
    show_kind(rt, name, page)?;
    println!(rt; "  bytes 4-7    pages           {}", meta.pages)?;
    println!(rt; "  bytes 8-11   root            {}", meta.root)?;
    show_checksum(rt, page)?;
    println!(rt; "  bytes 16-23  commit          {}", meta.commit)?;
    println!(rt; "  bytes 24-27  pairs           {}", meta.pairs)?;
    println!(rt; "  byte  28     levels          {}", meta.levels)?;
    Ok(())
}
