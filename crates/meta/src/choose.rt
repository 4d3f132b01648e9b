ghost use Rattle.std.specs.Prelude.{◌≡◌};
ghost use Rattle.meta.specs.Test.{newer};

use crate::Meta;

// Of what the two meta pages say, that with the larger commit number. None is below every commit.
pub fn newer(a: Option<Meta>, b: Option<Meta>) -> Option<Meta>
    ensures { result ≡ newer a b }
{
    if a.map(|m| m.commit) < b.map(|m| m.commit) {
        b
    } else {
        a
    }
}
