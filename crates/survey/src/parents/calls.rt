ghost use Rattle.std.specs.Prelude.{◌≡◌, ℕ, ◌<◌, None, Some, slice_index_or, slice_set};
ghost use Rattle.device.specs.Looking.{LooksOn};
ghost use Rattle.page.specs.Views.{branch_node};
ghost use Rattle.paged.specs.Paged.{children};
ghost use Rattle.survey.specs.Families.{TellsParents, Adopts, parent_in};

use crate::parents::{MOST_PAGES, Parents};
use device::{DeviceFault, Reader};
use page::{BranchPage, PageFault};
use walk::Marks;

impl Parents {
    // No page has a parent.
    fn none() -> Self
        ensures { (p : ℕ) → p < 1024 → parent_in result p ≡ None }
    {
        Parents {
            parents: [None; MOST_PAGES],
        }
    }

    // The parent of a page, if it has one.
    pub fn get(&self, page: u32) -> Option<u32>
        ensures { result ≡ parent_in self.now page }
    {
        self.parents.get(page as usize).copied().flatten()
    }

    fn set(&mut self, page: u32, parent: u32)
        ensures { self.new.parents ≡ slice_set self.old.parents page (Some parent) }
    {
        let page = page as usize;
        if page < MOST_PAGES {
            self.parents[page] = Some(parent);
        }
    }

    // Gives the children of a branch their parent.
    fn adopt(&mut self, parent: u32, branch: &BranchPage)
        ensures { Adopts (children (branch_node branch.now)) parent self.old.parents self.new.parents }
    {
        for i in 0..=branch.len() {
            self.set(branch.child(i).unwrap(), parent);
        }
    }

    // The parents of the marked pages of a reader: each marked page that reads as a branch is the parent of its children.
    pub fn of<R: Reader>(reader: &mut R, marks: &Marks) -> Result<Parents, DeviceFault>
        ensures { LooksOn R.Reader reader.old reader.new (λ m n _. TellsParents m.bytes m.size marks.now.marked n.on result) }
    {
        let mut parents = Parents::none();
        for page in 0..reader.pages() {
            if !marks.has(page) {
                continue;
            }
            match BranchPage::load(reader, page) {
                Ok(branch) => parents.adopt(page, &branch),
                Err(PageFault::Damaged(_)) => {}
                Err(PageFault::Device(fault)) => return Err(fault),
            }
        }
        Ok(parents)
    }
}
