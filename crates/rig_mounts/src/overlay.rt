//! How long a working copy takes for changes of new files, by their number and their order.
//!
//! So many files are written over the empty commit. Each is renamed, and removed at the new path.

use crate::measuring::{ORDERS, now};
use anyhow::Result;
use bytes::Bytes;
use eden_ids::{GitNaming, Id, Kind, Path};
use eden_objects::Store;
use eden_workcopy::WorkCopy;
use rig_kit::{Order, each};
use std::alloc::Global;

/// Returns so many paths in this order, a hundred of each directory.
fn paths(alloc: Global, name: &str, count: u64, order: Order) -> Result<Vec<Path>> {
    let mut paths = Vec::new(alloc);
    for turn in 0..count {
        let number = order.number(turn, count);
        let text = format!(in alloc; "dir{:05}/{name}{:02}", number / 100, number % 100)?;
        paths.push(Path::parse(alloc, text.as_bytes())?)?;
    }
    Ok(paths)
}

/// A working copy over a store of no commit.
#[derive(Drop)]
struct Mounted {
    store: Store<GitNaming>,
    work: WorkCopy,
}

impl Mounted {
    fn write_all(&mut self, paths: &[Path]) -> Result<()> {
        for path in paths {
            if self
                .work
                .write_fault(&self.store, path, b"text".as_slice())
                .is_none()
            {
                self.work
                    .put_file(path, Kind::Plain, &Bytes::from_static(b"text".as_slice()))?;
            }
        }
        Ok(())
    }

    fn rename_all(&mut self, old: &[Path], new: &[Path]) -> Result<()> {
        for (old, new) in old.iter().zip(new) {
            if self.work.rename_fault(&self.store, old, new).is_none() {
                self.work.move_file(&self.store, old, new)?;
            }
        }
        Ok(())
    }

    fn remove_all(&mut self, paths: &[Path]) -> Result<()> {
        for path in paths {
            if self.work.absent_fault(&self.store, path).is_none() {
                self.work.take_file(path)?;
            }
        }
        Ok(())
    }
}

/// Measures the changes of so many files in this order.
fn measure(rt: &HostRuntime, count: u64, order: Order) -> Result<()> {
    let old = paths(rt.alloc(), "file", count, order)?;
    let new = paths(rt.alloc(), "moved", count, order)?;
    let store = Store::new(rt.alloc(), GitNaming);
    let work = WorkCopy::new(rt.alloc(), &store, Id::ZERO)?;
    let mut mounted = Mounted { store, work };
    let start = now(rt)?;
    mounted.write_all(old.as_slice())?;
    let written = now(rt)?;
    mounted.rename_all(old.as_slice(), new.as_slice())?;
    let renamed = now(rt)?;
    mounted.remove_all(new.as_slice())?;
    let removed = now(rt)?;
    println!(rt;
        "{count} files {}: {} touched",
        order.name(),
        mounted.work.touched()?.len()
    )?;
    eprintln!(rt;
        "{count} files {}: {} ns a write, {} ns a rename, {} ns a removal",
        order.name(),
        each(written.saturating_sub(start), count),
        each(renamed.saturating_sub(written), count),
        each(removed.saturating_sub(renamed), count)
    )?;
    Ok(())
}

/// Measures changes of three numbers of files, in three orders each.
pub fn measure_overlay(rt: &HostRuntime) -> Result<()> {
    for count in [1_000, 10_000, 80_000] {
        for order in ORDERS {
            measure(rt, count, *order)?;
        }
    }
    Ok(())
}
