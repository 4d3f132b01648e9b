ghost use Rattle.std.specs.Prelude.{◌≡◌, true, false};

// Evidence of a transaction, kept beside the store: what changes the working map has to be shown one. Commit and abort
// take it back, whatever they answer. To let one go otherwise is refused by the build, as nothing then shows that it was
// taken back.
pub struct Ticket {
    taken_back: bool,
}

impl Ticket {
    pub(crate) fn new() -> Self
        ensures { result.taken_back ≡ false }
    {
        Ticket { taken_back: false }
    }

    pub(crate) fn take_back(self) {
        let mut ticket = self;
        ticket.taken_back = true;
    }
}

impl Drop for Ticket {
    fn drop(self)
        requires { self.taken_back ≡ true }
    {
        let Ticket { taken_back: _ } = self;
    }
}
