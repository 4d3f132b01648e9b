use crate::short::Short;

// What an edit leaves in place of a page: one page, or two with the separator between them.
#[derive(Drop)]
pub enum Grown<P> {
    One(P),
    Two(P, Short, P),
}
