// Stores a fare record on a write-behind device, once for each call at which power can fail, and shows what the
// device holds when power is back.
#![tactic(auto)]

use device::DeviceFault;
use disks::WriteBehind;

mod fare;

// The calls on which power fails, by their number: the calls that storing the record makes, and one past them.
const CALLS: [&str; 8] = [
    "(power stays)",
    "write of a data page",
    "write of a data page",
    "write of a data page",
    "sync of the data pages",
    "write of the header",
    "sync of the header",
    "(a call past the last)",
];

fn show_cut(rt: &HostRuntime, limit: u64, name: &str) -> anyhow::Result<()> {
    let pages = fare::FIRST_DATA + u32::from(fare::DATA_PAGES);
    let mut device = WriteBehind::new(rt.alloc(), pages, limit)?;
    let answer = fare::store(&mut device).map_or_else(DeviceFault::as_str, |()| "stored");
    let mut device = device.with_limit(0);
    let held = fare::find(&mut device)?;
    println!(rt; "{limit:>2}  {name:<22}  {answer:<10}  {held}")?;
    Ok(())
}

fn run(rt: &HostRuntime) -> anyhow::Result<()> {
    println!(rt; " k  power fails on          answer      the device then holds")?;
    for (limit, name) in (0..).zip(CALLS) {
        show_cut(rt, limit, name)?;
    }
    Ok(())
}

fn main(rt: HostRuntime) -> anyhow::Result<()> {
    run(&rt)
}
