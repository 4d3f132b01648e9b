// What an edit leaves, where a test knows whether it is one page or two.
use page::{Grown, Short};
use std::test::Fail;

pub(crate) fn one<P: Drop>(edited: Option<Grown<P>>) -> Result<P, Fail> {
    match edited.ok_or("refused")? {
        Grown::One(page) => Ok(page),
        Grown::Two(..) => Err(Fail::new("cut")),
    }
}

pub(crate) fn two<P: Drop>(edited: Option<Grown<P>>) -> Result<(P, Short, P), Fail> {
    match edited.ok_or("refused")? {
        Grown::One(_) => Err(Fail::new("not cut")),
        Grown::Two(left, separator, right) => Ok((left, separator, right)),
    }
}
