// Whether there is a text, and it is this one. Two options of borrowed bytes can't be compared by `==`: the borrow
// check has no proof yet where their lifetimes differ.
pub(crate) fn is(found: Option<&[u8]>, text: &[u8]) -> bool {
    found.is_some_and(|bytes| bytes == text)
}
