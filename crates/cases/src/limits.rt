// The calls at which power is cut, one after another.
use device::PowerCycle;
use std::alloc::AllocError;
use std::ops::Range;
use std::test::Fail;

// Tries the device that each limit makes.
pub(crate) fn cut_at_each<D: PowerCycle + Drop, M, T>(
    limits: Range<u64>,
    make: M,
    test: T,
) -> Result<(), Fail>
where
    M: Fn(u64) -> Result<D, AllocError>,
    T: Fn(&mut D, u64) -> Result<(), Fail>,
    requires makes { M.IsAlwaysCallable make }
    requires tests { T.IsAlwaysCallable test }
{
    for limit in limits {
        test(&mut make(limit)?, limit)?;
    }
    Ok(())
}
