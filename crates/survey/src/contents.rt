ghost use Rattle.std.specs.Prelude.{◌≡◌, Some};
ghost use Rattle.survey.specs.Contents.{content_of};
ghost use Rattle.survey.specs.Lines.{fill_words, content_words};

use device::Page;
use meta::Meta;
use page::{BranchPage, LeafPage};
use std::fmt;

// How many cells a page has, and how many of its bytes they cost.
#[derive(Clone, Copy, PartialEq, Eq, Debug)]
pub struct Fill {
    pub cells: usize,
    pub cost: usize,
}

// What a page is by its bytes.
#[derive(Clone, Copy, PartialEq, Eq, Debug)]
pub enum Content {
    // a meta page that passes the test of its place
    Meta(Meta),
    Leaf(Fill),
    Branch(Fill),
    // no page of this format
    Unused,
}

impl Content {
    // What the bytes are, which stand in page `at` of a card with so many pages.
    pub fn read(bytes: &Page, at: u32, pages: u32) -> Content
        ensures { result ≡ content_of pages at bytes.now }
    {
        if let Some(meta) = Meta::read(bytes, at, pages) {
            return Content::Meta(meta);
        }
        if let Ok(leaf) = LeafPage::read(bytes) {
            return Content::Leaf(Fill {
                cells: leaf.len(),
                cost: leaf.cost(),
            });
        }
        if let Ok(branch) = BranchPage::read(bytes) {
            return Content::Branch(Fill {
                cells: branch.len(),
                cost: branch.cost(),
            });
        }
        Content::Unused
    }
}

impl fmt::Display for Fill {
    ghost output = { λ fill. Some (fill_words fill) };

    fn fmt<W: fmt::Write>(&self, f: &mut fmt::Formatter<W>) -> fmt::Result {
        let Fill { cells, cost } = *self;
        write!(f, "cells {cells:>2}, cost {cost:>3}")
    }
}

impl fmt::Display for Content {
    ghost output = { λ content. Some (content_words content) };

    fn fmt<W: fmt::Write>(&self, f: &mut fmt::Formatter<W>) -> fmt::Result {
        match *self {
            Content::Meta(meta) => write!(f, "meta    commit {}", meta.commit),
            Content::Leaf(fill) => write!(f, "leaf    {fill}"),
            Content::Branch(fill) => write!(f, "branch  {fill}"),
            Content::Unused => write!(f, "unused"),
        }
    }
}
