ghost use Rattle.std.specs.Prelude.{◌≡◌, Some};
ghost use Rattle.device.specs.Looking.{LooksOn};
ghost use Rattle.survey.specs.Lines.{verdict_words};
ghost use Rattle.survey.specs.Verdicts.{verdict_on, is_sound};

use device::Reader;
use faults::StoreFault;
use std::fmt;
use walk::{Summary, check};

// What is said of a whole card: that it is sound, or the fault for which a store refuses it.
#[derive(Clone, Copy, PartialEq, Eq, Debug)]
pub enum Verdict {
    Sound(Summary),
    Refused(StoreFault),
}

impl Verdict {
    pub fn of<R: Reader>(reader: &mut R) -> Verdict
        ensures { LooksOn R.Reader reader.old reader.new (λ m n _. result ≡ verdict_on m.bytes m.size n.on) }
    {
        match check(reader) {
            Ok(summary) => Verdict::Sound(summary),
            Err(fault) => Verdict::Refused(fault),
        }
    }

    pub fn is_sound(self) -> bool
        ensures { result ≡ is_sound self }
    {
        matches!(self, Verdict::Sound(_))
    }
}

impl fmt::Display for Verdict {
    ghost output = { λ v. Some (verdict_words v) };

    fn fmt<W: fmt::Write>(&self, f: &mut fmt::Formatter<W>) -> fmt::Result {
        match *self {
            Verdict::Sound(
                Summary {
                    commit,
                    pairs,
                    levels,
                },
            ) => write!(f, "sound: commit {commit}, pairs {pairs}, levels {levels}"),
            Verdict::Refused(fault) => write!(f, "{fault}"),
        }
    }
}
