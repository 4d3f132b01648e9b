// The worked examples that the prover computes.
ghost use Rattle.cases.specs.Examples.{Examples};

use meta::laws::{seven_is_not_for_page_zero, six_and_seven_gives_seven};

// All examples hold, as one list.
pub fn examples_hold()
    ensures { Examples }
{
    six_and_seven_gives_seven();
    seven_is_not_for_page_zero();
}
