// Two commits of a store, where power fails on each call of the second in turn: which commit an opening finds when power is
// back, on a disk that loses what was not synced, and on one that loses nothing, beside what a client has to expect.
#![tactic(auto)]

use anyhow::{Context, bail};
use device::Device;
use disks::{AtOnce, AtSync, Disk, Stored, WriteBehind};
use faults::StoreFault;
use recovery::Entry;
use store::{Answer, Call, Store};
use trials::run_on_disk;

const PAGES: u32 = 16;

// The limits of a disk, with the call on which power then fails. Before the second commit come six calls of the format, four of
// the opening, and three of the first commit.
const CUTS: [(u64, &str); 4] = [
    (0, "(power stays)"),
    (14, "the first sync"),
    (15, "the write of the meta page"),
    (16, "the last sync"),
];

// What the commits answered, and the number that an opening found afterwards.
#[derive(Clone, Copy)]
struct Seen {
    first: u64,
    second: Result<u64, StoreFault>,
    found: u64,
}

fn answer_of(entry: &Entry) -> anyhow::Result<Result<Answer, StoreFault>> {
    entry.answer.context("a call without an answer")
}

fn number(answer: Answer) -> anyhow::Result<u64> {
    match answer {
        Answer::Number(number) => Ok(number),
        Answer::Cell(_) | Answer::Done => bail!("an answer without a number"),
    }
}

fn see<S: Stored>(rt: &HostRuntime, limit: u64) -> anyhow::Result<Seen> {
    let disk: Disk<S> = Disk::new(rt.alloc(), PAGES, limit)?;
    let mut script = [
        Entry::new(Call::Format),
        Entry::new(Call::Open),
        Entry::new(Call::Begin),
        Entry::new(Call::Commit),
        Entry::new(Call::Begin),
        Entry::new(Call::Commit),
        Entry::new(Call::PowerReturn),
        Entry::new(Call::Open),
    ];
    run_on_disk(disk, &mut script);
    let [_, _, _, first, _, second, _, opening] = &script;
    Ok(Seen {
        first: number(answer_of(first)??)?,
        second: match answer_of(second)? {
            Ok(answer) => Ok(number(answer)?),
            Err(fault) => Err(fault),
        },
        found: number(answer_of(opening)??)?,
    })
}

// The number that a client has to expect: the one that was answered, or where none was, the one before it or the next.
fn expected(rt: &HostRuntime, seen: &Seen) -> anyhow::Result<String> {
    Ok(match seen.second {
        Ok(second) => format!(in rt.alloc(); "{second}")?,
        Err(_) => format!(in rt.alloc(); "{} or {}", seen.first, seen.first.saturating_add(1))?,
    })
}

fn answer(rt: &HostRuntime, seen: &Seen) -> anyhow::Result<String> {
    Ok(match seen.second {
        Ok(second) => format!(in rt.alloc(); "{second}")?,
        Err(fault) => format!(in rt.alloc(); "{fault}")?,
    })
}

fn show_cut(rt: &HostRuntime, k: usize, limit: u64, name: &str) -> anyhow::Result<()> {
    let behind = see::<AtSync>(rt, limit)?;
    let through = see::<AtOnce>(rt, limit)?;
    if behind.second != through.second {
        bail!("the disks answer differently");
    }
    let answer = answer(rt, &behind)?;
    let expected = expected(rt, &behind)?;
    let (first, second) = (behind.found, through.found);
    println!(rt; "{k:>2}  {name:<26}  {answer:<20}  {first:<12}  {second:<13}  {expected}")?;
    Ok(())
}

// A transaction as a client makes it: it begins, which hands out a ticket, and commits, which takes it back.
fn commit_once<D: Device>(store: &mut Store<D>) -> Result<u64, StoreFault> {
    let ticket = store.begin()?;
    store.commit(ticket)
}

fn show_commits(rt: &HostRuntime) -> anyhow::Result<()> {
    let mut store = Store::new(WriteBehind::new(rt.alloc(), PAGES, 0)?);
    store.format()?;
    store.open()?;
    let first = commit_once(&mut store)?;
    let second = commit_once(&mut store)?;
    println!(rt; "two commits of a store: {first} and {second}")?;
    Ok(())
}

fn run(rt: &HostRuntime) -> anyhow::Result<()> {
    show_commits(rt)?;
    println!(rt; "power fails on a call of the second:")?;
    println!(rt;
        " k  power fails on              the commit answers    write-behind  write-through  expected"
    )?;
    for (k, (limit, name)) in CUTS.iter().enumerate() {
        show_cut(rt, k, *limit, name)?;
    }
    Ok(())
}

fn main(rt: HostRuntime) -> anyhow::Result<()> {
    run(&rt)
}
