ghost use Rattle.std.specs.Prelude.{◌≡◌, Some};
ghost use Rattle.checksum.specs.Kinds.{kind_byte, kind_of, kind_words, no_kind_words};

use std::error::Error;
use std::fmt;

// What a page is. Its first byte says so.
#[derive(Clone, Copy, PartialEq, Eq, Debug)]
pub enum Kind {
    Leaf,
    Branch,
    Meta,
}

// A byte that stands for no kind.
#[derive(Clone, Copy, PartialEq, Eq, Debug)]
pub struct NoKind(pub u8);

impl From<Kind> for u8 {
    ghost from_gives = { λ kind byte. byte ≡ kind_byte kind };

    fn from(kind: Kind) -> u8 {
        match kind {
            Kind::Leaf => 1,
            Kind::Branch => 2,
            Kind::Meta => 3,
        }
    }
}

impl TryFrom<u8> for Kind {
    type Error = NoKind;

    ghost try_from_gives = { λ byte r. r ≡ kind_of byte };

    fn try_from(byte: u8) -> Result<Kind, NoKind> {
        match byte {
            1 => Ok(Kind::Leaf),
            2 => Ok(Kind::Branch),
            3 => Ok(Kind::Meta),
            _ => Err(NoKind(byte)),
        }
    }
}

impl fmt::Display for Kind {
    ghost output = { λ kind. Some (kind_words kind) };

    fn fmt<W: fmt::Write>(&self, f: &mut fmt::Formatter<W>) -> fmt::Result {
        f.write_str(match self {
            Kind::Leaf => "leaf",
            Kind::Branch => "branch",
            Kind::Meta => "meta",
        })
    }
}

impl fmt::Display for NoKind {
    ghost output = { λ e. Some (no_kind_words e) };

    fn fmt<W: fmt::Write>(&self, f: &mut fmt::Formatter<W>) -> fmt::Result {
        write!(f, "no kind of page has the byte {}", self.0)
    }
}

impl Error for NoKind {}
