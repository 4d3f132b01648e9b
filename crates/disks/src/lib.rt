#![tactic(auto)]

mod disk;
mod fuse;
mod image;
mod stored;

pub use disk::{Disk, WriteBehind, WriteThrough};
pub use image::{Image, ImageFault};
pub use stored::{AtOnce, AtSync, Stored};
