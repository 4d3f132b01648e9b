// Runs of a store over a simulated disk: the promise on power loss, with nothing asked of the disk.
#![tactic(auto)]

ghost use Rattle.disks.specs.Disks.{disk_medium, disk_past};
ghost use Rattle.recovery.specs.Runs.{RunsTo};
ghost use Rattle.trials.specs.Trials.{Anything, FromDurable, BlankDisksAreDurable};

use disks::{Disk, Stored};
use recovery::{Entry, run};
use store::Store;

// Makes a client's calls on a new store over a disk, of either kind, formats and power returns among them, and puts each
// answer beside its call.
pub fn run_on_disk<S: Stored>(disk: Disk<S>, script: &mut [Entry]) -> Store<Disk<S>>
    ensures { RunsTo disk_past disk_medium Anything (FromDurable (disk_past disk) (disk_medium disk)) disk script.old script.new result }
{
    run(disk, script)
}

// What `run_on_disk` promises holds over a new disk, to which no call has led. This function does nothing: it carries the law in
// its contract.
pub fn blank_disks_are_durable<S: Stored>()
    ensures { BlankDisksAreDurable S.Stored }
{}

#[cfg(test)]
mod tests {
    use super::*;
    use device::DeviceFault;
    use disks::{AtOnce, AtSync};
    use faults::StoreFault;
    use page::PageFault;
    use std::alloc::Global;
    use std::test::Fail;
    use store::{Answer, Call};

    type Answered = Result<Answer, StoreFault>;

    const NONE: Answered = Err(StoreFault::NoMeta);

    const OFF: Answered = Err(StoreFault::Page(PageFault::Device(DeviceFault::Off)));

    fn number(n: u64) -> Answered {
        Ok(Answer::Number(n))
    }

    // What the last of these calls answers on a new disk, whose power fails at its `limit`-th call.
    fn last_of<S: Stored>(
        heap: Global,
        pages: u32,
        limit: u64,
        script: &mut [Entry],
    ) -> Result<Answered, Fail> {
        let disk: Disk<S> = Disk::new(heap, pages, limit)?;
        run_on_disk(disk, script);
        let entry = script.last().ok_or("no call")?;
        Ok(entry.answer.ok_or("no answer")?)
    }

    // What is found with this limit. The calls of the format have the numbers 1 to 6, those of the first opening 7 to 10, and
    // those of the commits 11 to 13 and 14 to 16: a sync, the meta page, a sync. The limit counts anew when power returns, so
    // that the last opening meets one of 1 to 3, too.
    fn found<S: Stored>(heap: Global, limit: u64) -> Result<Answered, Fail> {
        let mut script = [
            Entry::new(Call::Format),
            Entry::new(Call::Open),
            Entry::new(Call::Begin),
            Entry::new(Call::Commit),
            Entry::new(Call::Begin),
            Entry::new(Call::Commit),
            Entry::new(Call::PowerReturn),
            Entry::new(Call::Open),
        ];
        last_of::<S>(heap, 16, limit, &mut script)
    }

    // A write that was durable at once is found, also where the sync after it was refused.
    #[test]
    fn found_at_once(rt: HostRuntime) -> Result<(), Fail> {
        for (limit, expected) in (1..).zip([OFF, OFF, OFF, NONE, NONE, number(0)]) {
            assert_eq!(rt; found::<AtOnce>(rt.alloc(), limit)?, expected, "{limit}");
        }
        for (limit, n) in (7..).zip([0, 0, 0, 0, 0, 0, 1, 1, 1, 2, 2]) {
            assert_eq!(rt; found::<AtOnce>(rt.alloc(), limit)?, number(n), "{limit}");
        }
        Ok(())
    }

    // A format or a commit is found if its last sync was accepted.
    #[test]
    fn found_at_sync(rt: HostRuntime) -> Result<(), Fail> {
        for (limit, expected) in (1..).zip([OFF, OFF, OFF, NONE, NONE, NONE]) {
            assert_eq!(rt; found::<AtSync>(rt.alloc(), limit)?, expected, "{limit}");
        }
        for (limit, n) in (7..).zip([0, 0, 0, 0, 0, 0, 0, 1, 1, 1, 2]) {
            assert_eq!(rt; found::<AtSync>(rt.alloc(), limit)?, number(n), "{limit}");
        }
        Ok(())
    }

    // A format begins anew: the commits before it are gone.
    #[test]
    fn formatted_again(rt: HostRuntime) -> Result<(), Fail> {
        let mut script = [
            Entry::new(Call::Format),
            Entry::new(Call::Open),
            Entry::new(Call::Begin),
            Entry::new(Call::Commit),
            Entry::new(Call::Format),
            Entry::new(Call::Open),
        ];
        assert_eq!(rt;
            last_of::<AtSync>(rt.alloc(), 16, 0, &mut script)?,
            number(0)
        );
        Ok(())
    }

    // A format on which power fails, and one on too few pages, are refused for that.
    #[test]
    fn formats_refused(rt: HostRuntime) -> Result<(), Fail> {
        for limit in 1..=6 {
            let mut script = [Entry::new(Call::Format)];
            assert_eq!(rt; last_of::<AtOnce>(rt.alloc(), 16, limit, &mut script)?, OFF);
        }
        let mut script = [Entry::new(Call::Format)];
        assert_eq!(rt;
            last_of::<AtSync>(rt.alloc(), 15, 0, &mut script)?,
            Err(StoreFault::PageCount)
        );
        Ok(())
    }
}
