// Shows how many calls a device gets on a few workloads, with a cache over it and without.
#![tactic(auto)]

use cache::Cache;
use device::{Device, DeviceFault, Reader};
use disks::WriteBehind;
use std::iter::once;

const PAGES: u32 = 16;

const TURNS: u32 = 100;

// A call of a device, a page by its number. A value, since a closure could be called on one type of device only.
#[derive(Clone, Copy)]
enum Call {
    Read(u32),
    Write(u32),
    Sync,
}

impl Call {
    fn make<D: Device>(self, device: &mut D) -> Result<(), DeviceFault> {
        match self {
            Call::Read(page) => device.read(page, &mut [0; 512]),
            Call::Write(page) => device.write(page, &[7; 512]),
            Call::Sync => device.sync(),
        }
    }
}

fn make_all<D: Device>(calls: &[Call], device: &mut D) -> Result<(), DeviceFault> {
    calls.iter().try_for_each(|call| call.make(device))
}

fn show(rt: &HostRuntime, name: &str, calls: &[Call]) -> anyhow::Result<()> {
    let mut bare = WriteBehind::new(rt.alloc(), PAGES, 0)?;
    make_all(calls, &mut bare)?;
    let mut cache = Cache::new(WriteBehind::new(rt.alloc(), PAGES, 0)?);
    make_all(calls, &mut cache)?;
    let without = bare.calls();
    let with = cache.below().calls();
    println!(rt; "{name:<48}  {without:>7}  {with:>4}")?;
    Ok(())
}

// Reads of so many pages in turn.
fn reads(rt: &HostRuntime, pages: u32) -> anyhow::Result<Vec<Call>> {
    Ok(
        (0..TURNS)
            .map(|turn| Call::Read(turn % pages.max(1)))
            .collect(rt.alloc())?,
    )
}

fn run(rt: &HostRuntime) -> anyhow::Result<()> {
    println!(rt; "calls of the device                               without  with cache")?;
    show(rt, "100 reads of one page", &reads(rt, 1)?)?;
    show(rt, "100 reads of 8 pages in turn", &reads(rt, 8)?)?;
    show(rt, "100 reads of 9 pages in turn", &reads(rt, 9)?)?;
    let writes: Vec<Call> = (0..TURNS)
        .map(|turn| Call::Write(turn % 4))
        .chain(once(Call::Sync))
        .collect(rt.alloc())?;
    show(rt, "100 writes to 4 pages in turn, and a sync", &writes)?;
    // as a search in a tree walks down to a leaf
    let searches: Vec<Call> = (0..TURNS)
        .flat_map(|turn| [0, 1, 2, 3 + turn % 5])
        .map(Call::Read)
        .collect(rt.alloc())?;
    show(
        rt,
        "100 searches through 3 pages to one of 5 leaves",
        &searches,
    )
}

fn main(rt: HostRuntime) -> anyhow::Result<()> {
    run(&rt)
}
