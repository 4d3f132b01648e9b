// What reading a page finds when one of its bits is wrong.
use device::{PAGE_SIZE, Page};
use page::Cause;

// What reading finds first where one bit is turned. (Options of a cause, since the tables count the pages with none, too.)
#[derive(Clone, Copy)]
struct Found {
    // with the other bytes as they are
    bare: Option<Cause>,
    // with the checksum made right
    sealed: Option<Cause>,
}

// What is found for each byte with its lowest bit turned. (An array, since the program needs no heap; it is filled by index,
// as each of its places is a byte of the page.)
fn find<F: Fn(&Page) -> Option<Cause>>(page: &Page, cause: F) -> [Found; PAGE_SIZE]
    requires { F.IsAlwaysCallable cause }
{
    let mut found = [Found {
        bare: None,
        sealed: None,
    }; PAGE_SIZE];
    for i in 0..PAGE_SIZE {
        let mut turned = *page;
        turned[i] ^= 1;
        let bare = cause(&turned);
        checksum::seal(&mut turned);
        let sealed = cause(&turned);
        found[i] = Found { bare, sealed };
    }
    found
}

// How often one of some causes was found.
fn show_row<F: Fn(Option<Cause>) -> bool>(
    rt: &HostRuntime,
    name: &str,
    found: &[Found],
    counts: F,
) -> anyhow::Result<()>
    requires { F.IsAlwaysCallable counts }
{
    let bare = found.iter().filter(|f| counts(f.bare)).count();
    let sealed = found.iter().filter(|f| counts(f.sealed)).count();
    println!(rt; "  {name:<15}  {bare:>8}  {sealed:>28}")?;
    Ok(())
}

// The causes that one page alone does not show.
fn is_other(cause: Option<Cause>) -> bool {
    matches!(
        cause,
        Some(Cause::Bounds | Cause::Underfull | Cause::Child | Cause::PairCount)
    )
}

fn show_rows(rt: &HostRuntime, found: &[Found]) -> anyhow::Result<()> {
    show_row(rt, "checksum", found, |c| c == Some(Cause::Checksum))?;
    show_row(rt, "kind", found, |c| c == Some(Cause::Kind))?;
    show_row(rt, "layout", found, |c| c == Some(Cause::Layout))?;
    show_row(rt, "order", found, |c| c == Some(Cause::Order))?;
    show_row(rt, "any other", found, is_other)?;
    show_row(rt, "none (accepted)", found, |c| c.is_none())
}

// A table of the causes that reading a page of its kind finds.
pub fn show<F: Fn(&Page) -> Option<Cause>>(
    rt: &HostRuntime,
    name: &str,
    page: &Page,
    cause: F,
) -> anyhow::Result<()>
    requires { F.IsAlwaysCallable cause }
{
    let found = find(page, cause);
    println!(rt)?;
    println!(rt; "{name}")?;
    println!(rt; "  cause            as it is  with the checksum made right")?;
    show_rows(rt, &found)
}
