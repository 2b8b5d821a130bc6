//! The table that a store stands in: what it and copies of it keep while it grows, also where a growth is refused.

use eden_ids::{GitNaming, Id, Naming, NoMemory};
use eden_segments::{Counted, Share, Table};
use std::alloc::{AllocError, Global};
use std::process::Abort;
use std::test::Fail;

/// How many rows are added, and copies taken.
const ROWS: u16 = 1_000;

/// How the id of a row comes from its number.
#[derive(Clone, Copy, Debug)]
enum Ids {
    /// By Git's naming.
    Named,
    /// The last two bytes alone differ.
    SameFront,
    /// The first two bytes alone differ.
    SameEnd,
}

impl Ids {
    fn id(self, number: u16) -> Id {
        let [high, low] = number.to_be_bytes();
        let mut bytes = [b'i'; 20];
        match self {
            Ids::Named => return GitNaming.id_of(b"blob".as_slice(), [high, low].as_slice()),
            Ids::SameFront => {
                bytes[18] = high;
                bytes[19] = low;
            }
            Ids::SameEnd => {
                bytes[0] = high;
                bytes[1] = low;
            }
        }
        Id(bytes)
    }

    /// The ids of the first rows, and of one more.
    fn all(self, alloc: Global) -> Result<Vec<Id>, AllocError> {
        (0..=ROWS).map(|number| self.id(number)).collect(alloc)
    }
}

/// Adds a row, unless its id has one.
fn add_row<V: Drop>(table: &mut Table<V>, id: Id, value: V) -> Result<bool, NoMemory> {
    match table.get(id) {
        Some(_) => Ok(false),
        None => {
            table.add(id, value)?;
            Ok(true)
        }
    }
}

/// What is lent to threads and moved to them.
fn crossing<T: Send + Sync>(value: &T) -> &T {
    value
}

/// The value of an id, in a table that can cross threads, since its values can.
fn value_of<V: Drop + Send + Sync>(table: &Table<V>, id: Id) -> Option<&V> {
    crossing(table).get(id)
}

/// Whether a table has just the rows whose numbers are below the limit: the rows about the limit are looked at, and some of the others.
fn has_just(table: &Table<Counted<u16>>, ids: &[Id], limit: usize) -> bool {
    ids.iter()
        .enumerate()
        .filter(|(number, _)| number % 64 == 0 || number.abs_diff(limit) <= 2)
        .all(|(number, id)| {
            let value = value_of(table, *id).map(|value| usize::from(**value));
            value == if number < limit { Some(number) } else { None }
        })
}

/// Adds the rows one by one, and a copy after each.
fn add_rows(
    rt: &impl Abort,
    table: &mut Table<Counted<u16>>,
    copies: &mut Vec<Table<Counted<u16>>>,
    ids: Ids,
) -> Result<(), Fail> {
    let alloc = table.allocator();
    for number in 0..ROWS {
        let value = Counted::new(alloc, number)?;
        assert!(rt; add_row(table, ids.id(number), value)?);
        copies.push(table.share()?)?;
    }
    Ok(())
}

/// The first copy that has other rows than those up to its own.
fn first_wrong(copies: &[Table<Counted<u16>>], ids: &[Id]) -> Option<usize> {
    for (place, copy) in copies.iter().enumerate() {
        if !has_just(copy, ids, place + 1) {
            return Some(place);
        }
    }
    None
}

/// Whether the value of an id is this number.
fn holds(table: &Table<Counted<u16>>, id: Id, number: u16) -> bool {
    match value_of(table, id) {
        Some(value) => **value == number,
        None => false,
    }
}

/// A copy and what it was taken from grow apart: the id of one row more has a value of its own in each.
fn grow_apart(
    table: &mut Table<Counted<u16>>,
    copy: &mut Table<Counted<u16>>,
    last: Id,
) -> Result<bool, Fail> {
    let alloc = table.allocator();
    let added = add_row(copy, last, Counted::new(alloc, 7)?)?
        && value_of(table, last).is_none()
        && add_row(table, last, Counted::new(alloc, 8)?)?;
    Ok(added && holds(copy, last, 7) && holds(table, last, 8))
}

/// Checks the copies that are taken while a table grows, and that the last of them grows apart from it.
fn check_copies(
    rt: &impl Abort,
    table: &mut Table<Counted<u16>>,
    copies: &mut Vec<Table<Counted<u16>>>,
    ids: Ids,
) -> Result<(), Fail> {
    add_rows(rt, table, copies, ids)?;
    let all = ids.all(table.allocator())?;
    let wrong = first_wrong(copies.as_slice(), all.as_slice());
    assert!(rt; wrong.is_none(), "{ids:?}, copy {wrong:?}");
    let copy = copies.last_mut().ok_or("no copy was taken")?;
    assert!(rt; grow_apart(table, copy, ids.id(ROWS))?, "{ids:?}");
    Ok(())
}

#[test]
fn copies_keep_what_they_had(rt: HostRuntime) -> Result<(), Fail> {
    let alloc = rt.alloc();
    for ids in [Ids::Named, Ids::SameFront, Ids::SameEnd] {
        let (mut table, mut copies) = (Table::new(alloc), Vec::new(alloc));
        check_copies(&rt, &mut table, &mut copies, ids)?;
    }
    Ok(())
}

/// A number that can be shared, or not.
#[derive(Drop)]
struct Stubborn {
    number: u16,
    shares: bool,
}

impl Share for Stubborn {
    fn share(&self) -> Result<Stubborn, NoMemory> {
        if !self.shares {
            return Err(NoMemory);
        }
        Ok(Stubborn {
            number: self.number,
            shares: self.shares,
        })
    }
}

/// Whether a table has the rows of these numbers alone, of some that it may have.
fn is_whole(table: &Table<Stubborn>, limit: u16) -> bool {
    (0..100).all(|number| {
        let found = value_of(table, Ids::SameFront.id(number));
        found.map(|held| held.number) == if number < limit { Some(number) } else { None }
    })
}

/// Adds a row, and again where memory was refused: the table is as before then.
fn add_again(
    rt: &impl Abort,
    table: &mut Table<Stubborn>,
    number: u16,
    shares: bool,
) -> Result<(), Fail> {
    let id = Ids::SameFront.id(number);
    if add_row(table, id, Stubborn { number, shares }).is_err() {
        assert!(rt; is_whole(table, number));
        assert!(rt; add_row(table, id, Stubborn { number, shares })?);
    }
    Ok(())
}

/// Takes a copy, if that is not refused, and freezes the table. Tells whether it was refused.
fn is_refused(rt: &impl Abort, table: &mut Table<Stubborn>, limit: u16) -> bool {
    let refused = match table.share() {
        Ok(copy) => {
            assert!(rt; is_whole(&copy, limit));
            false
        }
        Err(NoMemory) => true,
    };
    table.freeze();
    refused
}

/// Adds rows one by one, of which one can't be shared, and takes a copy after each. Tells how many copies were refused. No refusal, of a
/// row or of memory, changes what the table has.
fn refusals(rt: &impl Abort, alloc: Global, stubborn: u16) -> Result<u16, Fail> {
    let mut table = Table::new(alloc);
    let mut refused = 0u16;
    for number in 0..40 {
        add_again(rt, &mut table, number, number != stubborn)?;
        if is_refused(rt, &mut table, number + 1) {
            refused = refused.saturating_add(1);
        }
        assert!(rt; is_whole(&table, number + 1), "{stubborn}: {number}");
    }
    Ok(refused)
}

#[test]
fn refused_growths(rt: HostRuntime) -> Result<(), Fail> {
    let alloc = rt.alloc();
    for stubborn in 0..41 {
        let refused = refusals(&rt, alloc, stubborn)?;
        // Where each row can be shared, only memory is refused.
        assert!(rt; stubborn < 40 || refused <= 1, "{stubborn}: {refused}");
    }
    // The first row is merged with the second at once.
    assert_eq!(rt; refusals(&rt, alloc, 0)?, 39);
    Ok(())
}
