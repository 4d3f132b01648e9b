use clap::Error;
use std::process::ExitCode;

// How a run ends: the worst of what it met.
#[derive(Clone, Copy, PartialEq, Eq, PartialOrd, Ord, Debug)]
pub enum Status {
    // every card is sound, or the new one is made, or help was asked for
    Fine = 0,
    // a card is not sound
    Unsound = 1,
    // anything else: arguments that are wrong, a file that is no image, a card that is not made, output that is not written
    Trouble = 2,
}

impl Status {
    // Of arguments that make no task: those that ask for help are answered, and others are wrong.
    pub fn of_arguments(error: &Error) -> Status {
        if error.use_stderr() {
            Status::Trouble
        } else {
            Status::Fine
        }
    }
}

impl From<Status> for ExitCode {
    fn from(status: Status) -> ExitCode {
        ExitCode::from(status as u8)
    }
}
