// A folder for the files of one test, which is empty when it begins.
use std::fs;
use std::test::Fail;

pub fn clear(rt: &HostRuntime, folder: &str) -> Result<(), Fail> {
    let _ = fs::remove_dir_all(rt, folder);
    fs::create_dir(rt, folder)?;
    Ok(())
}

// The names in a folder, in their order, one after another.
pub fn names(rt: &HostRuntime, folder: &str) -> Result<String, Fail> {
    let mut found: Vec<String> = Vec::new(rt.alloc());
    for entry in fs::read_dir(rt, folder)? {
        found.push(String::from_str(rt.alloc(), entry?.file_name())?)?;
    }
    found.sort()?;
    let mut names = String::new(rt.alloc());
    for name in &found {
        names.push_str(name)?;
        names.push(' ')?;
    }
    Ok(names)
}
