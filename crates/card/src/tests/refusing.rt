// A runtime that refuses some calls on files, and hands the others on.
use std::alloc::Allocator;
use std::fs::{Files, Metadata, OpenOptions, Permissions};
use std::io::{self, ErrorKind};

// The calls that it refuses.
#[derive(Clone, Copy, PartialEq, Eq)]
pub enum Refused {
    Links,
    Removals,
    OpeningFolders,
}

#[derive(Clone, Copy)]
pub struct Refusing<'a, R> {
    pub rt: &'a R,
    pub refused: Refused,
}

impl<R> Refusing<'_, R> {
    fn refuse(&self, calls: Refused, kind: ErrorKind) -> io::Result<()> {
        if self.refused == calls {
            return Err(io::Error::from(kind));
        }
        Ok(())
    }
}

impl<R: Alloc> Alloc for Refusing<'_, R> {
    type A = R::A;

    fn alloc(&self) -> R::A {
        self.rt.alloc()
    }
}

impl<R: Files> Files for Refusing<'_, R> {
    type File = R::File;

    type Dir = R::Dir;

    fn open_file(&self, how: &OpenOptions, path: &str) -> io::Result<R::File> {
        if let Ok(found) = self.rt.metadata(path) {
            if found.is_dir() {
                self.refuse(Refused::OpeningFolders, ErrorKind::PermissionDenied)?;
            }
        }
        self.rt.open_file(how, path)
    }

    fn open_dir(&self, path: &str) -> io::Result<R::Dir> {
        self.rt.open_dir(path)
    }

    fn metadata(&self, path: &str) -> io::Result<Metadata> {
        self.rt.metadata(path)
    }

    fn symlink_metadata(&self, path: &str) -> io::Result<Metadata> {
        self.rt.symlink_metadata(path)
    }

    fn copy(&self, from: &str, to: &str) -> io::Result<u64> {
        self.rt.copy(from, to)
    }

    fn rename(&self, from: &str, to: &str) -> io::Result<()> {
        self.rt.rename(from, to)
    }

    fn remove_file(&self, path: &str) -> io::Result<()> {
        self.refuse(Refused::Removals, ErrorKind::PermissionDenied)?;
        self.rt.remove_file(path)
    }

    fn create_dir(&self, path: &str) -> io::Result<()> {
        self.rt.create_dir(path)
    }

    fn remove_dir(&self, path: &str) -> io::Result<()> {
        self.rt.remove_dir(path)
    }

    fn remove_dir_all<B: Allocator>(&self, alloc: B, path: &str) -> io::Result<()> {
        self.rt.remove_dir_all(alloc, path)
    }

    fn hard_link(&self, original: &str, link: &str) -> io::Result<()> {
        self.refuse(Refused::Links, ErrorKind::Unsupported)?;
        self.rt.hard_link(original, link)
    }
}
