ghost use Rattle.std.specs.Prelude.{◌≡◌, ◌≤◌, true, false, [], length, slice_index_or, slice_set};
ghost use Rattle.walk.specs.Marking.{MarksAre, free};

// The most pages that a device may have.
pub(crate) const MOST_PAGES: usize = 1024;

// Marks on pages, one for each page of the largest device: fixed memory, as a store needs no heap. (A page's number is cast
// to its place among them: it fits, since a `usize` is as wide at least.)
#[derive(Clone, Copy)]
pub struct Marks {
    marked: [bool; MOST_PAGES],
    ghost long: { length marked ≡ 1024 },
}

impl Marks {
    // No page is marked.
    pub fn new() -> Self
        ensures { MarksAre result.marked [] }
    {
        Marks {
            marked: [false; MOST_PAGES],
        }
    }

    // Whether the page is marked.
    pub fn has(&self, page: u32) -> bool
        ensures { result ≡ slice_index_or self.now.marked page false }
    {
        self.marked.get(page as usize).is_some_and(|marked| *marked)
    }

    // Marks the page, if there is such a page.
    pub fn mark(&mut self, page: u32)
        ensures { self.new.marked ≡ slice_set self.old.marked page true }
    {
        let page = page as usize;
        // By its index: with `get_mut` the proof does not close, since what that lends out of a field that a ghost field
        // speaks of is not known to come back.
        if page < MOST_PAGES {
            self.marked[page] = true;
        }
    }

    // Whether a page may be a child: it is one of the device's, no meta page, and was not met.
    pub(crate) fn admits(&self, size: u32, page: u32) -> bool
        ensures { result ≡ free size self.now.marked page }
    {
        (2..size).contains(&page) && !self.has(page)
    }
}
