ghost use Rattle.std.specs.Prelude.{◌<◌};

// The number of a slot.
#[derive(Clone, Copy)]
pub struct Place {
    pub number: usize,
    ghost within: { number < 8 },
}
