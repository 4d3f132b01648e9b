// Shows the bytes of small pages, each as a table, and what reading a page finds when one of its bits is wrong.
#![tactic(auto)]

use anyhow::{Context, bail};
use device::Page;
use meta::Meta;
use page::{BranchPage, Grown, LeafPage};

mod damage;
mod tables;

// The leaf with one pair more, which has to fit. (A match of its own, as that below: their messages differ.)
fn put(leaf: &LeafPage, key: &[u8], value: &[u8]) -> anyhow::Result<LeafPage> {
    match leaf.put(key, value).context("no such pair can be put")? {
        Grown::One(leaf) => Ok(leaf),
        Grown::Two(..) => bail!("the leaf is full"),
    }
}

fn three_pairs() -> anyhow::Result<LeafPage> {
    let leaf = put(&LeafPage::empty(), b"cab7", b"12.90")?;
    let leaf = put(&leaf, b"taxi", b"18.40")?;
    put(&leaf, b"trip", b"7.25")
}

fn three_children() -> anyhow::Result<BranchPage> {
    let root = BranchPage::root(5, b"cab13", 6).context("no such root can be made")?;
    let grown = root.insert(1, 6, b"tr", 9);
    match grown.context("no such child can be put")? {
        Grown::One(branch) => Ok(branch),
        Grown::Two(..) => bail!("the branch is full"),
    }
}

// The pages of the device that the meta page is for.
const PAGES: u32 = 16;

fn seventh_commit() -> Page {
    let meta = Meta {
        pages: PAGES,
        root: 9,
        commit: 7,
        pairs: 3,
        levels: 2,
    };
    meta.encode()
}

fn show_rules(rt: &HostRuntime) -> anyhow::Result<()> {
    println!(rt;
        "A page has 512 bytes. Numbers stand low byte first. The cells of a leaf or a branch fill it from its end, in"
    )?;
    println!(rt;
        "rising order; their offsets stand from byte 16 on. In a branch, keys below the first cell's lie under the"
    )?;
    println!(rt; "leftmost child; a leaf has no children, and 0 there.")?;
    Ok(())
}

fn show_pages(rt: &HostRuntime, leaf: &LeafPage, branch: &BranchPage) -> anyhow::Result<()> {
    show_rules(rt)?;
    tables::show_leaf(rt, "a leaf with no pairs", &LeafPage::empty())?;
    tables::show_leaf(rt, "a leaf with three pairs", leaf)?;
    tables::show_branch(rt, "a branch with three children", branch)?;
    tables::show_meta(rt, "the meta page of commit 7", &seventh_commit(), 1, PAGES)
}

fn show_damage(rt: &HostRuntime, leaf: &LeafPage, branch: &BranchPage) -> anyhow::Result<()> {
    println!(rt)?;
    println!(rt;
        "The lowest bit of each of the 512 bytes is turned, one at a time. What reading the page then finds first:"
    )?;
    damage::show(rt, "the leaf with three pairs", leaf.bytes(), |page| {
        LeafPage::read(page).err()
    })?;
    damage::show(
        rt,
        "the branch with three children",
        branch.bytes(),
        |page| { BranchPage::read(page).err() },
    )?;
    println!(rt)?;
    println!(rt;
        "Accepted are the four bytes of the checksum, which making it right turns back, and bytes of keys, values,"
    )?;
    println!(rt; "separators and children, where another good page comes of it.")?;
    Ok(())
}

fn run(rt: &HostRuntime) -> anyhow::Result<()> {
    let leaf = three_pairs()?;
    let branch = three_children()?;
    show_pages(rt, &leaf, &branch)?;
    show_damage(rt, &leaf, &branch)
}

fn main(rt: HostRuntime) -> anyhow::Result<()> {
    run(&rt)
}
