//! Changes of a working copy one after another, each with what is answered to it and what is held then.

use crate::mounted::Mounted;
use eden_history::ChangeFault;
use std::alloc::Global;
use std::test::Fail;

/// A change, what is answered to it, and then the files, each with what it holds, and the dirty paths. A star stands for names that the
/// test gives.
pub(crate) type Step<'a> = (&'a str, Option<ChangeFault>, &'a str, &'a str);

/// Returns a text with these names in place of each star.
fn spelled(alloc: Global, text: &str, names: &str) -> Result<String, Fail> {
    let mut spelled = String::new(alloc);
    for (place, part) in text.split('*').enumerate() {
        if place > 0 {
            spelled.push_str(names)?;
        }
        spelled.push_str(part)?;
    }
    Ok(spelled)
}

/// Returns whether a change is answered, and leaves the files and the root, as its step says.
fn goes(alloc: Global, mounted: &mut Mounted, step: &Step<'_>) -> Result<bool, Fail> {
    let (change, answer, files, dirty) = step;
    let told = mounted.change(alloc, change)?;
    let held = mounted.held(alloc)?;
    let changed = mounted.dirty(alloc)?;
    let root = mounted.work.copy()?.root();
    Ok(
        told == *answer
            && held.as_slice() == files.as_bytes()
            && changed.as_slice() == dirty.as_bytes()
            && root == mounted.root,
    )
}

/// Returns the first change that goes otherwise than its step says, with these names in place of each star.
fn first_wrong(
    alloc: Global,
    mounted: &mut Mounted,
    names: &str,
    steps: &[Step<'static>],
) -> Result<Option<&'static str>, Fail> {
    for (change, answer, files, dirty) in steps {
        let made = spelled(alloc, change, names)?;
        let files = spelled(alloc, files, names)?;
        let dirty = spelled(alloc, dirty, names)?;
        let step = (made.as_str(), *answer, files.as_str(), dirty.as_str());
        if !goes(alloc, mounted, &step)? {
            return Ok(Some(*change));
        }
    }
    Ok(None)
}

/// The same over a commit of what these lines put, by the commit's label.
pub(crate) fn first_wrong_over(
    alloc: Global,
    lines: &str,
    root: &str,
    names: &str,
    steps: &[Step<'static>],
) -> Result<Option<&'static str>, Fail> {
    let mut mounted = Mounted::over(alloc, lines, root)?;
    first_wrong(alloc, &mut mounted, names, steps)
}
