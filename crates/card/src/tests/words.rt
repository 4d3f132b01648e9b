// Which arguments make which task, and which are refused.
use crate::status::Status;
use crate::words::{Task, asked, read};
use std::alloc::{AllocError, Global};
use std::test::Fail;

fn text(alloc: Global, task: Task<'_, '_>) -> Result<String, AllocError> {
    match task {
        Task::Check(files) => format!(in alloc; "check {files:?}"),
        Task::Pages(file) => format!(in alloc; "pages {file:?}"),
        Task::Format(card) if card.replaces => {
            format!(in alloc;
                "format {:?}, {} pages, in its place",
                card.file, card.pages
            )
        }
        Task::Format(card) => format!(in alloc; "format {:?}, {} pages", card.file, card.pages),
    }
}

// The task that a line asks for; or if it asks for none, how the run ends.
fn outcome(rt: &HostRuntime, line: &str) -> Result<String, Fail> {
    let mut words = Vec::new(rt.alloc());
    for word in line.split_whitespace() {
        words.push(String::from_str(rt.alloc(), word)?)?;
    }
    match read(rt.alloc(), words.as_slice()) {
        Ok(matches) => match asked(&matches) {
            Some(task) => Ok(text(rt.alloc(), task)?),
            None => Err("no task".into()),
        },
        Err(error) => Ok(format!(in rt.alloc(); "{:?}", Status::of_arguments(&error))?),
    }
}

const TASKS: [(&str, &str); 9] = [
    ("card check a.img", "check [\"a.img\"]"),
    ("card check a.img b.img", "check [\"a.img\", \"b.img\"]"),
    ("card pages a.img", "pages \"a.img\""),
    ("card format a.img 16", "format \"a.img\", 16 pages"),
    (
        "card format --replace a.img 16",
        "format \"a.img\", 16 pages, in its place",
    ),
    (
        "card format a.img 16 --replace",
        "format \"a.img\", 16 pages, in its place",
    ),
    // how many pages a card may have is asked later
    (
        "card format a.img 4294967295",
        "format \"a.img\", 4294967295 pages",
    ),
    ("card check -- --replace", "check [\"--replace\"]"),
    ("card pages -- -h", "pages \"-h\""),
];

#[test]
fn arguments_that_ask_for_a_task(rt: HostRuntime) -> Result<(), Fail> {
    for (line, task) in TASKS {
        assert_eq!(rt; outcome(&rt, line)?.as_str(), task, "{line}");
    }
    Ok(())
}

const REFUSED: [&str; 15] = [
    "card",
    "card chek a.img",
    "card check",
    "card check --replace a.img",
    "card pages",
    "card pages a.img b.img",
    "card pages --replace a.img",
    "card format",
    "card format a.img",
    "card format a.img 16 17",
    "card format a.img x",
    "card format a.img -1",
    "card format a.img 4294967296",
    "card format --replace --replace a.img 16",
    "card help chek",
];

#[test]
fn arguments_that_are_refused(rt: HostRuntime) -> Result<(), Fail> {
    for line in REFUSED {
        assert_eq!(rt; outcome(&rt, line)?.as_str(), "Trouble", "{line}");
    }
    Ok(())
}

const HELP: [&str; 8] = [
    "card -h",
    "card --help",
    "card help",
    "card help check",
    "card help format",
    "card check -h",
    "card pages --help",
    "card format a.img --help",
];

#[test]
fn arguments_that_ask_for_help(rt: HostRuntime) -> Result<(), Fail> {
    for line in HELP {
        assert_eq!(rt; outcome(&rt, line)?.as_str(), "Fine", "{line}");
    }
    Ok(())
}
