// A call that a client makes, or a power return.
#[derive(Drop)]
pub enum Call {
    Format,
    Open,
    Begin,
    Get(Vec<u8>),
    After(Vec<u8>),
    Abort,
    Commit,
    PowerReturn,
}

// What an accepted call answered.
#[derive(Clone, Copy, PartialEq, Eq, Debug)]
pub enum Answer {
    // the number of a commit
    Number(u64),
    // the number of a cell
    Cell(usize),
    Done,
}
