ghost use Rattle.std.specs.Prelude.{◌≡◌, length};

mod calls;

// The most pages that a card may have.
const MOST_PAGES: usize = 1024;

// The parent of each page of a tree.
#[derive(Clone, Copy)]
pub struct Parents {
    parents: [Option<u32>; MOST_PAGES],
    ghost long: { length parents ≡ 1024 },
}
