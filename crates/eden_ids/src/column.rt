//! A list of ids that takes twenty bytes for each.

ghost use Rattle.std.specs.Prelude.{◌≡◌, ◌+◌, ◌<◌, ◌≤◌, [], ◌∷◌, ◌++◌, length, map, OnOk, OnErr, slice_get};
ghost use Rattle.std.specs.List.{All};
ghost use Rattle.std.specs.Vec.{vec_capacity, vec_len};
ghost use Rattle.eden_ids.specs.Columns.{IsOfItsWords, id_of_words, word};

use crate::id::Id;
use crate::memory::NoMemory;
use std::alloc::Global;
use std::marker::Model;

/// A list of ids, kept as five columns of words.
///
/// A row is the position of an id in the list, counted from 0. An id is five words of
/// four bytes each, highest byte first. The list has no limit but memory, and takes about
/// twenty bytes for each id.
#[derive(Drop)]
pub struct IdColumn {
    first: Vec<u32>,
    second: Vec<u32>,
    third: Vec<u32>,
    fourth: Vec<u32>,
    fifth: Vec<u32>,
}

impl Model for IdColumn {
    ghost use Rattle.std.specs.Prelude.{List, length};
    ghost use Rattle.eden_ids.specs.declared.id.Id.{Id};
    ghost use Rattle.eden_ids.specs.Columns.{AreColumns, rows};

    ghost Value = { List Id };

    ghost view = { λ c. rows (length c.first.items) c.first.items c.second.items c.third.items c.fourth.items c.fifth.items };

    ghost invariant = { λ c. AreColumns (rows (length c.first.items) c.first.items c.second.items c.third.items c.fourth.items c.fifth.items)
        c.first.items c.second.items c.third.items c.fourth.items c.fifth.items };
}

/// Returns the id with these five words.
fn id_from(first: u32, second: u32, third: u32, fourth: u32, fifth: u32) -> Id
    ensures { result ≡ id_of_words first second third fourth fifth }
{
    let words = [
        first.to_be_bytes(),
        second.to_be_bytes(),
        third.to_be_bytes(),
        fourth.to_be_bytes(),
        fifth.to_be_bytes(),
    ];
    let mut id = [0; 20];
    id.copy_from_slice(words.as_flattened());
    Id(id)
}

/// Makes room for one more word in each of the five columns.
fn make_room(
    first: &mut Vec<u32>,
    second: &mut Vec<u32>,
    third: &mut Vec<u32>,
    fourth: &mut Vec<u32>,
    fifth: &mut Vec<u32>,
) -> Result<(), NoMemory>
    ensures first { first.new.items ≡ first.old.items }
    ensures second { second.new.items ≡ second.old.items }
    ensures third { third.new.items ≡ third.old.items }
    ensures fourth { fourth.new.items ≡ fourth.old.items }
    ensures fifth { fifth.new.items ≡ fifth.old.items }
    ensures room { OnOk result ((vec_len first.new < vec_capacity first.new) × (vec_len second.new < vec_capacity second.new) × (vec_len third.new < vec_capacity third.new) × (vec_len fourth.new < vec_capacity fourth.new) × (vec_len fifth.new < vec_capacity fifth.new)) }
{
    first.reserve(1)?;
    second.reserve(1)?;
    third.reserve(1)?;
    fourth.reserve(1)?;
    fifth.reserve(1)?;
    Ok(())
}

/// Adds a word after the others. There must be room for it.
fn put(words: &mut Vec<u32>, added: u32)
    requires { vec_len words.old < vec_capacity words.old }
    ensures { words.new.items ≡ words.old.items ++ added ∷ [] }
{
    match words.push(added) {
        Ok(()) => {}
        Err(_) => unreachable!(),
    }
}

impl IdColumn {
    /// Returns an empty column. Does not allocate.
    pub fn new(alloc: Global) -> Self
        ensures { result ≡ [] }
    {
        IdColumn {
            first: Vec::new(alloc),
            second: Vec::new(alloc),
            third: Vec::new(alloc),
            fourth: Vec::new(alloc),
            fifth: Vec::new(alloc),
        }
    }

    /// Adds an id after the others.
    ///
    /// All five columns make room before a word is written.
    ///
    /// # Errors
    ///
    /// - `NoMemory` if an allocation fails; nothing changes.
    #[tactic(auto, using(crate::proofs::ColumnLemmas::columns))]
    pub fn push(&mut self, id: Id) -> Result<(), NoMemory>
        ensures ok { OnOk result (self.new ≡ self.old ++ id ∷ []) }
        ensures err { OnErr result (self.new ≡ self.old) }
    {
        make_room(
            &mut self.first,
            &mut self.second,
            &mut self.third,
            &mut self.fourth,
            &mut self.fifth,
        )?;
        put(&mut self.first, id.word(0));
        put(&mut self.second, id.word(1));
        put(&mut self.third, id.word(2));
        put(&mut self.fourth, id.word(3));
        put(&mut self.fifth, id.word(4));
        Ok(())
    }

    /// Returns the number of ids. Does not allocate.
    #[tactic(auto, using(crate::proofs::ColumnLemmas::columns))]
    pub fn len(&self) -> usize
        ensures { result ≡ length self.now }
    {
        self.first.len()
    }

    /// Returns the id at a row, or `None`.
    ///
    /// It is `None` if there is no such row. Does not allocate.
    #[tactic(auto, using(crate::proofs::ColumnLemmas::columns))]
    pub fn get(&self, row: usize) -> Option<Id>
        ensures { result ≡ slice_get self.now row }
    {
        if row < self.first.len() {
            Some(id_from(
                self.first[row],
                self.second[row],
                self.third[row],
                self.fourth[row],
                self.fifth[row],
            ))
        } else {
            None
        }
    }

    /// Returns one of the five columns of words, counted from 0.
    ///
    /// It has one word for each id, in the order of the ids; the five words of a row make
    /// up its id. `place` must be below 5. Does not allocate.
    #[tactic(auto, using(crate::proofs::ColumnLemmas::columns))]
    pub fn words(&self, place: usize) -> &[u32]
        requires { place < 5 }
        ensures words { result.now ≡ map (word place) self.now }
        ensures len { length result.now ≡ length self.now }
        ensures ids { All IsOfItsWords self.now }
    {
        match place {
            0 => self.first.as_slice(),
            1 => self.second.as_slice(),
            2 => self.third.as_slice(),
            3 => self.fourth.as_slice(),
            _ => self.fifth.as_slice(),
        }
    }
}
