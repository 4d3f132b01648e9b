use crate::status::Status;
use std::fmt;

// What went wrong, and with which file, if it was with one. The name stands beside the error: an `anyhow::Error` cuts a text
// at 120 bytes, and a file's name may be longer.
#[derive(Drop)]
pub struct Failure<'a> {
    file: Option<&'a str>,
    error: anyhow::Error,
}

impl<'a> Failure<'a> {
    pub fn with(file: &'a str, error: anyhow::Error) -> Failure<'a> {
        Failure {
            file: Some(file),
            error,
        }
    }

    // Tells of it on the standard error. Where that is closed, the status alone tells.
    pub fn tell(&self, rt: &HostRuntime) -> Status {
        let _ = eprintln!(rt; "card: {self}");
        Status::Trouble
    }
}

impl From<anyhow::Error> for Failure<'_> {
    fn from(error: anyhow::Error) -> Self {
        Failure { file: None, error }
    }
}

impl fmt::Display for Failure<'_> {
    fn fmt<W: fmt::Write>(&self, f: &mut fmt::Formatter<W>) -> fmt::Result {
        if let Some(file) = self.file {
            write!(f, "{file}: ")?;
        }
        write!(f, "{:#}", self.error)
    }
}
