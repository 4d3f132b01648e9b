ghost use Rattle.disks.specs.Images.{WholePages, FewPages};

mod calls;
mod fault;

pub use fault::ImageFault;

// The bytes of a device, for reading only. It is never off.
#[derive(Drop)]
pub struct Image {
    bytes: Vec<u8>,
    ghost whole: { WholePages bytes.items },
    ghost few: { FewPages bytes.items },
}
