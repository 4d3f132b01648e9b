ghost use Rattle.std.specs.Prelude.{◌≡◌, Some};
ghost use Rattle.std.specs.Option.{option_map};
ghost use Rattle.survey.specs.Rows.{note_of, node_note};
ghost use Rattle.survey.specs.Lines.{note_words, row_words};

use crate::contents::Content;
use crate::family::{Place, Tree};
use std::fmt;

// What is said of a page besides what its bytes are.
#[derive(Clone, Copy, PartialEq, Eq, Debug)]
pub enum Note {
    Nothing,
    // the meta page that counts
    Newest,
    // a leaf or a branch
    Stands(Place),
}

// What is said of a page.
#[derive(Clone, Copy, PartialEq, Eq, Debug)]
pub struct Row {
    pub page: u32,
    pub content: Content,
    pub note: Note,
}

impl Row {
    // `newest` is the commit number of the newest meta page. Of a card that is not sound no tree is known.
    pub fn new(page: u32, content: Content, newest: Option<u64>, tree: Option<&Tree>) -> Row
        ensures { result ≡ record { page = page; content = content; note = note_of newest (option_map (λ t. t.now) tree.entry) page content } }
    {
        let note = match content {
            Content::Meta(meta) if newest == Some(meta.commit) => Note::Newest,
            Content::Meta(_) => Note::Nothing,
            Content::Leaf(_) => Note::of_node(page, tree),
            Content::Branch(_) => Note::of_node(page, tree),
            Content::Unused => Note::Nothing,
        };
        Row {
            page,
            content,
            note,
        }
    }
}

impl Note {
    fn of_node(page: u32, tree: Option<&Tree>) -> Note
        ensures { result ≡ node_note (option_map (λ t. t.now) tree.entry) page }
    {
        tree.map_or(Note::Nothing, |tree| Note::Stands(tree.place(page)))
    }
}

impl fmt::Display for Note {
    ghost output = { λ note. Some (note_words note) };

    fn fmt<W: fmt::Write>(&self, f: &mut fmt::Formatter<W>) -> fmt::Result {
        match *self {
            Note::Nothing => Ok(()),
            Note::Newest => write!(f, ", the newest"),
            Note::Stands(Place::Root) => write!(f, ", the root"),
            Note::Stands(Place::ChildOf(parent)) => write!(f, ", child of {parent}"),
            Note::Stands(Place::NoTree) => write!(f, ", in no tree"),
        }
    }
}

impl fmt::Display for Row {
    ghost output = { λ row. Some (row_words row) };

    fn fmt<W: fmt::Write>(&self, f: &mut fmt::Formatter<W>) -> fmt::Result {
        let Row {
            page,
            content,
            note,
        } = *self;
        write!(f, "{page:>4}  {content}{note}")
    }
}
