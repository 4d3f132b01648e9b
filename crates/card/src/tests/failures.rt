// The text of a failure.
use crate::failure::Failure;
use anyhow::anyhow;
use std::test::Fail;

#[test]
fn a_failure_names_the_file_and_each_cause(rt: HostRuntime) -> Result<(), Fail> {
    let error = anyhow!("File exists").context("not made");
    let text = Failure::from(error).to_string(rt.alloc())?;
    assert_eq!(rt; text.as_str(), "not made: File exists");
    let error = anyhow!("File exists").context("not made");
    let text = Failure::with("a.img", error).to_string(rt.alloc())?;
    assert_eq!(rt; text.as_str(), "a.img: not made: File exists");
    Ok(())
}

// An error's own text is cut at 120 bytes.
#[test]
fn a_long_name_is_told_whole(rt: HostRuntime) -> Result<(), Fail> {
    let name = "trips/".repeat(rt.alloc(), 50)?;
    let text = Failure::with(&name, anyhow!("too many pages")).to_string(rt.alloc())?;
    let whole = format!(in rt.alloc(); "{name}: too many pages")?;
    assert_eq!(rt; text.as_str(), whole.as_str());
    Ok(())
}
