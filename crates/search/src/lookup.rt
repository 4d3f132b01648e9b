// A pair out of a page buffer.
ghost use Rattle.std.specs.Prelude.{◌≡◌, IfErr};
ghost use Rattle.std.specs.Option.{option_map};
ghost use Rattle.std.specs.Result.{result_ok};
ghost use Rattle.faults.specs.declared.fault.StoreFault.TheVariants.{NoCell};
ghost use Rattle.page.specs.Pairs.{seen, pair_seen, LiesIn};

use device::Page;
use faults::StoreFault;
use page::{PairParts, pair_in};

// Pair `cell` of the leaf page in a buffer, as parts of the buffer. It is refused with `NoCell` if the buffer is no leaf
// page by kind, layout and rising keys, or has no cell of that number. The checksum is not looked at.
pub fn pair(buffer: &Page, cell: usize) -> Result<PairParts<'_>, StoreFault>
    ensures pair { option_map seen (result_ok result) ≡ pair_seen cell buffer.now }
    ensures parts { LiesIn buffer.now (result_ok result) }
    ensures refusal { IfErr result (λ f. f ≡ NoCell) }
{
    pair_in(buffer, cell).ok_or(StoreFault::NoCell)
}
