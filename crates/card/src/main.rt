// Looks at the image of a card, whether it is sound, and what each of its pages is; and makes that of a new one.
#![tactic(auto)]

use anyhow::Context;
use clap::ArgMatches;
use std::env;
use std::process::ExitCode;

mod checking;
mod failure;
mod files;
mod formatting;
mod pages;
mod status;
#[cfg(test)]
mod tests;
mod words;

use failure::Failure;
use status::Status;
use words::Task;

fn answer<'a>(rt: &HostRuntime, matches: &ArgMatches<'a>) -> Result<Status, Failure<'a>> {
    let task = words::asked(matches).context("the arguments ask for no task")?;
    match task {
        Task::Check(files) => Ok(checking::check(rt, files)?),
        Task::Pages(file) => pages::show(rt, file),
        Task::Format(card) => formatting::format(rt, &card),
    }
}

fn run(rt: &HostRuntime) -> anyhow::Result<Status> {
    let words: Vec<String> = env::args(rt)
        .context("the arguments cannot be read")?
        .collect(rt.alloc())?;
    match words::read(rt.alloc(), words.as_slice()) {
        Ok(matches) => Ok(answer(rt, &matches).unwrap_or_else(|failure| failure.tell(rt))),
        Err(error) => {
            error.print(rt)?;
            Ok(Status::of_arguments(&error))
        }
    }
}

fn main(rt: HostRuntime) -> ExitCode {
    let status = run(&rt).unwrap_or_else(|error| Failure::from(error).tell(&rt));
    status.into()
}
