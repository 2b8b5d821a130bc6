//! The objects that a script begins with, read from the file that a command line names.

ghost use Rattle.std.specs.Prelude.{◌≤◌, IfErr};

use crate::devices::Noting;
use crate::ends::{EDEND, fail};
use crate::explained::explain_put;
use crate::reason::Excerpt;
use eden_batch::{ObjectFault, ObjectsFault, read_objects};
use eden_edend::Objects;
use eden_git::{ObjectType, RawEntry, read_entry, tree_named};
use eden_ids::{GitNaming, Id, Naming, NoMemory};
use eden_objects::{Importer, Payload, PutFault, Store};
use eden_stream::Counted;
use std::alloc::Global;
use std::io::{Read, Write};
use std::marker::Model;
use std::{fmt, io};

/// Opens the files that a command line names.
pub trait Shelf {
    /// A file that is open.
    type File: Read + Drop;

    /// Opens the file of this name, to be read.
    ///
    /// No clause says what a name opens: the bytes of a file are the system's.
    fn open(&self, name: &str) -> io::Result<Self::File>;
}

/// Names an object to a person.
#[derive(Clone, Copy, Debug)]
struct Named {
    object_type: ObjectType,
    id: Id,
}

impl fmt::Display for Named {
    fn fmt<W: fmt::Write>(&self, f: &mut fmt::Formatter<W>) -> fmt::Result {
        let id = self.id.to_hex();
        let (object_type, id) = (Excerpt(self.object_type.text()), Excerpt(id.as_slice()));
        write!(f, "{object_type} {id}")
    }
}

/// Holds an object that a store has refused, and why.
#[derive(Clone, Copy, Debug)]
struct Refused {
    object: Named,
    cause: PutFault,
    /// The first object that it names and the store does not have.
    missing: Option<Named>,
}

impl fmt::Display for Refused {
    fn fmt<W: fmt::Write>(&self, f: &mut fmt::Formatter<W>) -> fmt::Result {
        let object = self.object;
        match (self.cause, self.missing) {
            (PutFault::MissingChild, Some(missing)) => {
                write!(f, "{object} names {missing}, which was not put before it")
            }
            (cause, _) => {
                let why = explain_put(cause);
                write!(f, "{object}: {why}")
            }
        }
    }
}

/// Holds a store, and the object that it refused last.
#[derive(Drop)]
struct Filled {
    store: Store<GitNaming>,
    refused: Option<Refused>,
}

impl Model for Filled {
    ghost use Rattle.std.specs.Prelude.{List};
    ghost use Rattle.eden_objects.specs.Objects.{Held};

    ghost Value = { List Held };

    ghost view = { λ filled. filled.store };
}

impl Filled {
    /// Makes an empty store that has refused nothing.
    fn new(alloc: Global) -> Filled {
        Filled {
            store: Store::new(alloc, GitNaming),
            refused: None,
        }
    }

    /// Returns the objects, with the commits among these ids bound to their own labels.
    fn into_objects(self, alloc: Global, ids: &[Id]) -> Result<Objects, NoMemory> {
        let mut objects = Objects::new(alloc);
        objects.store = self.store;
        objects.name_commits(ids)?;
        Ok(objects)
    }

    /// Returns true if the store has a blob or a tree of this id.
    fn has(&self, id: Id) -> bool {
        self.store.blob(id).is_some() || self.store.tree(id).is_some()
    }

    /// Returns the first object that a tree names and the store does not have.
    fn missing_entry(&self, payload: &[u8]) -> Option<Named> {
        let mut rest = payload;
        for _ in 0..payload.len() {
            let (RawEntry { id, kind, .. }, behind) = read_entry(rest).ok()?;
            if !self.has(id) {
                let object_type = if kind.is_some() {
                    ObjectType::Blob
                } else {
                    ObjectType::Tree
                };
                return Some(Named { object_type, id });
            }
            rest = behind;
        }
        None
    }

    /// Returns the first object that an object names and the store does not have.
    fn missing(&self, object_type: ObjectType, payload: &[u8]) -> Option<Named> {
        match object_type {
            ObjectType::Blob => None,
            ObjectType::Tree => self.missing_entry(payload),
            ObjectType::Commit => {
                let id = tree_named(payload)?;
                if self.has(id) {
                    return None;
                }
                Some(Named {
                    object_type: ObjectType::Tree,
                    id,
                })
            }
        }
    }
}

impl Importer for Filled {
    ghost use Rattle.std.specs.Prelude.{refl};
    ghost use Rattle.eden_ids.specs.Naming.{git_name};

    ghost name = { git_name };

    ghost held = { λ filled. filled };

    ghost over = { λ _ held. held };

    ghost laws = { record { same = λ filled. refl; again = λ filled held more. refl } };

    fn put_object(
        &mut self,
        object_type: ObjectType,
        payload: Payload<'_>,
    ) -> Result<Id, PutFault> {
        let put = self.store.put_object(object_type, payload);
        if let Err(cause) = put {
            let payload = payload.as_slice();
            let id = GitNaming.id_of(object_type.text(), payload);
            self.refused = Some(Refused {
                object: Named { object_type, id },
                cause,
                missing: self.missing(object_type, payload),
            });
        }
        put
    }
}

/// Returns what is wrong with an object that the store was not asked to put, or has put.
fn explain_object(fault: ObjectFault) -> &'static str {
    match fault {
        ObjectFault::BadHeader => {
            "expected an id, `blob`, `tree` or `commit`, and a length, as `git cat-file --batch` prints them"
        }
        ObjectFault::TooLarge => "the object has more than 8,388,608 bytes",
        ObjectFault::CutShort => "the file ends within the object",
        ObjectFault::Refused(fault) => explain_put(fault),
        ObjectFault::OtherId => "the bytes are not those of the object that the header names",
    }
}

/// Prints why an object can't be put.
fn tell_object<E: Write>(
    errors: &mut E,
    fault: ObjectsFault,
    cause: ObjectFault,
    refused: Option<Refused>,
) {
    let _ = match (cause, refused) {
        (ObjectFault::Refused(_), Some(refused)) => {
            write!(errors, "{EDEND}: {fault}: {refused}\n")
        }
        _ => {
            let why = explain_object(cause);
            write!(errors, "{EDEND}: {fault}: {why}\n")
        }
    };
}

/// Prints why the objects of a file can't be read, and returns the status that the program ends
/// with.
fn tell_fault<E: Write>(
    errors: &mut E,
    fault: ObjectsFault,
    refused: Option<Refused>,
    name: &str,
    failed: Option<io::Error>,
) -> u8
    ensures { result ≤ 3 }
{
    match (fault, failed) {
        (ObjectsFault::Object { fault: cause, .. }, _) => {
            tell_object(errors, fault, cause, refused);
            1
        }
        (ObjectsFault::Read { .. }, Some(error)) => {
            let _ = write!(errors, "{EDEND}: {fault}: {name}: {error}\n");
            3
        }
        _ => {
            let _ = write!(errors, "{EDEND}: {fault}\n");
            3
        }
    }
}

/// Puts the objects of a file, and binds each commit to its own label.
///
/// If that can't be done, it prints why, and returns the status that the program ends with.
fn read_first<F: Read + Drop, E: Write>(
    alloc: Global,
    file: F,
    name: &str,
    errors: &mut E,
) -> Result<Objects, u8>
    ensures { IfErr result (λ status. status ≤ 3) }
{
    let mut filled = Filled::new(alloc);
    let mut device = Noting::new(file);
    match read_objects(alloc, &mut Counted::new(&mut device), &mut filled) {
        Ok(ids) => match filled.into_objects(alloc, ids.as_slice()) {
            Ok(objects) => Ok(objects),
            Err(NoMemory) => Err(fail(errors, EDEND, "NoMemory")),
        },
        Err(fault) => Err(tell_fault(errors, fault, filled.refused, name, device.failed)),
    }
}

/// Returns the objects that the script begins with: those of the file on the command line, or none.
pub(crate) fn first_objects<S: Shelf, E: Write>(
    alloc: Global,
    shelf: &S,
    name: Option<&str>,
    errors: &mut E,
) -> Result<Objects, u8>
    ensures { IfErr result (λ status. status ≤ 3) }
{
    let Some(name) = name else {
        return Ok(Objects::new(alloc));
    };
    match shelf.open(name) {
        Ok(file) => read_first(alloc, file, name, errors),
        Err(error) => {
            let _ = write!(errors, "{EDEND}: {name}: {error}\n");
            Err(3)
        }
    }
}
