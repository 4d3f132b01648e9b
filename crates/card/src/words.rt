// The arguments that the program is called with, and the task that they ask for.
use clap::{Arg, ArgAction, ArgMatches, Command, Error, value_parser};
use std::alloc::{AllocError, Global};

// A card to be made.
#[derive(Clone, Copy)]
pub struct NewCard<'a> {
    pub file: &'a str,
    pub pages: u32,
    // whether it may take the place of a file
    pub replaces: bool,
}

// What is asked for.
pub enum Task<'m, 'a> {
    Check(&'m [&'a str]),
    Pages(&'a str),
    Format(NewCard<'a>),
}

fn file<'a>(alloc: Global, help: &'a str) -> Arg<'a> {
    Arg::new(alloc, "file")
        .value_name("FILE")
        .help(help)
        .required(true)
}

fn format_command<'a>(alloc: Global) -> Result<Command<'a>, AllocError> {
    let pages = Arg::new(alloc, "pages")
        .value_name("PAGES")
        .help("How many pages it has: 16 to 1024")
        .value_parser(value_parser!(u32))
        .required(true);
    let replace = Arg::new(alloc, "replace")
        .long("replace")
        .help("If there is such a file, put the new card in its place")
        .action(ArgAction::SetTrue);
    Command::new(alloc, "format")
        .about("Makes the image of a new card, whose map is empty")
        .arg(file(alloc, "The file to make"))?
        .arg(pages)?
        .arg(replace)
}

fn command<'a>(alloc: Global) -> Result<Command<'a>, AllocError> {
    let files = file(alloc, "The image of a card")
        .action(ArgAction::Append)
        .num_args(1..);
    let check = Command::new(alloc, "check")
        .about("Says of each card whether it is sound, or what is wrong with it first")
        .arg(files)?;
    let pages = Command::new(alloc, "pages")
        .about("Shows what each page of a card is")
        .arg(file(alloc, "The image of a card"))?;
    Command::new(alloc, "card")
        .about("Looks at the image of a card, and makes new ones")
        .subcommand_required(true)
        .subcommand(check)?
        .subcommand(pages)?
        .subcommand(format_command(alloc)?)
}

// Reads the arguments, of which the first is the program's name. An error is for those that ask for no task, but maybe for help.
pub fn read<'a>(alloc: Global, words: &'a [String]) -> Result<ArgMatches<'a>, Error> {
    command(alloc)?.try_get_matches_from(words)
}

// The task that they ask for. What `read` accepts asks for one: None would mean that `command` has a command that is not known
// here, or does not require what its task needs.
pub fn asked<'m, 'a>(matches: &'m ArgMatches<'a>) -> Option<Task<'m, 'a>> {
    let (name, given) = matches.subcommand()?;
    let files = given.get_strs("file")?;
    let file = *files.first()?;
    match name {
        "check" => Some(Task::Check(files)),
        "pages" => Some(Task::Pages(file)),
        "format" => Some(Task::Format(NewCard {
            file,
            pages: given.get_one("pages")?,
            replaces: given.get_flag("replace"),
        })),
        _ => None,
    }
}
