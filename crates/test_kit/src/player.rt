//! Rows of the table, played line by line.

use crate::labels::Labels;
use crate::mounted::Mounted;
use crate::objects::{Objects, command_of};
use crate::played::Played;
use crate::rows::{ANSWER_ROWS, CHANGE_ROWS, LABEL_ROWS, OBJECT_ROWS, Row};
use crate::text::{differing_line, lines};
use bytes::Bytes;
use eden_globs::{Filter, FilterFault};
use eden_history::{Answer, Change, ChangeFault, Position};
use eden_ids::{Id, Path};
use eden_objects::CommitFault;
use eden_script::{
    AskLine, ChangeLine, Command, Label, MountLine, PutLine, Refusal, Word, push_all_marked,
    push_bytes, push_content, push_listed, push_number, push_refusal,
};
use std::alloc::{AllocError, Global};
use std::test::Fail;

/// The path that a word is, or why it is none.
fn path_of(alloc: Global, word: &Word) -> Result<Path, Refusal> {
    match Path::parse(alloc, word.as_bytes()) {
        Ok(path) => Ok(path),
        Err(fault) => Err(Refusal::Path(fault)),
    }
}

/// The commit that a label names.
fn commit_of(labels: &Labels, label: &Label) -> Result<Id, Refusal> {
    labels.get(label.as_bytes()).ok_or(Refusal::NoLabel)
}

/// The bytes of a word.
fn bytes_of(alloc: Global, word: &Word) -> Result<Bytes, Refusal> {
    match Bytes::copy_from_slice(alloc, word.as_bytes()) {
        Ok(bytes) => Ok(bytes),
        Err(_) => Err(Refusal::File(ChangeFault::NoMemory)),
    }
}

/// The change that a line asks for, or why there is none.
fn change_of(alloc: Global, labels: &Labels, line: &ChangeLine) -> Result<Change, Refusal> {
    Ok(match line {
        ChangeLine::Write { path, kind, bytes } => Change::Write {
            path: path_of(alloc, path)?,
            kind: *kind,
            bytes: bytes_of(alloc, bytes)?,
        },
        ChangeLine::Remove { path } => Change::Remove {
            path: path_of(alloc, path)?,
        },
        ChangeLine::Rename { old, new } => Change::Rename {
            old: path_of(alloc, old)?,
            new: path_of(alloc, new)?,
        },
        ChangeLine::RenameDir { old, new } => Change::RenameDir {
            old: path_of(alloc, old)?,
            new: path_of(alloc, new)?,
        },
        ChangeLine::Reset { label } => Change::Reset {
            commit: commit_of(labels, label)?,
        },
        ChangeLine::Flush => Change::Flush,
        ChangeLine::Remount { generation } => Change::Remount {
            generation: *generation,
        },
        ChangeLine::Checkout { label, mode } => Change::Checkout {
            commit: commit_of(labels, label)?,
            mode: *mode,
        },
    })
}

fn push_at(text: &mut Vec<u8>, labels: &Labels, position: &Position) -> Result<(), AllocError> {
    push_bytes(text, b"at ".as_slice())?;
    labels.push_position(text, position)
}

fn push_answer(text: &mut Vec<u8>, labels: &Labels, answer: &Answer) -> Result<(), AllocError> {
    match answer {
        Answer::At(position) => push_at(text, labels, position),
        Answer::Checked {
            position,
            conflicts,
        } => {
            push_at(text, labels, position)?;
            push_listed(text, b"conflicts ".as_slice(), conflicts.as_slice())
        }
        Answer::Refused(fault) => push_refusal(text, Refusal::File(*fault)),
    }
}

/// Adds the paths of the files that the patterns admit.
fn tell_list<P: Played + Drop>(
    alloc: Global,
    mounted: &mut Mounted<P>,
    patterns: &[Word],
    text: &mut Vec<u8>,
) -> Result<(), Fail> {
    let mut bytes = Vec::new(alloc);
    for pattern in patterns {
        bytes.push(pattern.as_bytes())?;
    }
    match Filter::parse(alloc, bytes.as_slice()) {
        Ok(filter) => {
            let (_, paths) = mounted.basis(alloc, filter)?;
            push_listed(text, b"files ".as_slice(), paths.as_slice())?;
        }
        Err(fault) => push_refusal(text, Refusal::Patterns(fault))?,
    }
    Ok(())
}

/// Adds the file at a path.
fn tell_read<P: Played + Drop>(
    alloc: Global,
    mounted: &mut Mounted<P>,
    path: &Word,
    text: &mut Vec<u8>,
) -> Result<(), Fail> {
    match path_of(alloc, path) {
        Ok(path) => match mounted.read(alloc, &path)? {
            Ok(content) => push_content(text, content.kind, content.bytes.as_slice())?,
            Err(fault) => push_refusal(text, Refusal::File(fault))?,
        },
        Err(cause) => push_refusal(text, cause)?,
    }
    Ok(())
}

/// Adds what changed since a position.
fn tell_since<P: Played + Drop>(
    alloc: Global,
    mounted: &mut Mounted<P>,
    labels: &Labels,
    since: (u64, u64),
    text: &mut Vec<u8>,
) -> Result<(), Fail> {
    match mounted.poll(alloc, since.0, since.1)? {
        Ok((target, marked, prefixes)) => {
            push_bytes(text, b"changes ".as_slice())?;
            push_number(text, marked.len() as u64)?;
            push_bytes(text, b" to ".as_slice())?;
            labels.push_position(text, &target)?;
            push_all_marked(text, marked.as_slice())?;
            if !prefixes.is_empty() {
                push_listed(text, b"prefixes ".as_slice(), prefixes.as_slice())?;
            }
        }
        Err(fault) => push_refusal(text, Refusal::Since(fault))?,
    }
    Ok(())
}

/// Adds what a line asks for.
fn tell_asked<P: Played + Drop>(
    alloc: Global,
    mounted: &mut Mounted<P>,
    objects: &Objects,
    line: &AskLine,
    text: &mut Vec<u8>,
) -> Result<(), Fail> {
    match line {
        AskLine::Position => {
            let (position, _) = mounted.basis(alloc, Filter::all(alloc))?;
            Ok(push_at(text, &objects.labels, &position)?)
        }
        AskLine::ListFiles { patterns } => tell_list(alloc, mounted, patterns.as_slice(), text),
        AskLine::Dirty => {
            let paths = mounted.dirty(alloc, &objects.store)?;
            Ok(push_listed(text, b"dirty ".as_slice(), paths.as_slice())?)
        }
        AskLine::Read { path } => tell_read(alloc, mounted, path, text),
        AskLine::Since {
            generation,
            sequence,
        } => {
            let since = (*generation, *sequence);
            tell_since(alloc, mounted, &objects.labels, since, text)
        }
    }
}

/// A row so far.
#[derive(Drop)]
struct Player<P> {
    alloc: Global,
    objects: Objects,
    mounted: Option<Mounted<P>>,
    text: Vec<u8>,
}

impl<P: Played + Drop> Player<P> {
    /// Adds a refusal.
    fn refuse(&mut self, cause: Refusal) -> Result<(), Fail> {
        Ok(push_refusal(&mut self.text, cause)?)
    }

    /// Puts an object, as a line says. Once there is a mount, it is imported there too, and is to be answered alike.
    fn put(&mut self, line: PutLine) -> Result<(), Fail> {
        let alloc = self.alloc;
        let imported = match (&mut self.mounted, self.objects.object_of(alloc, &line)?) {
            (Some(mounted), Some(object)) => Some(mounted.import(alloc, object)?),
            _ => None,
        };
        let put = self.objects.tell_put(alloc, line, &mut self.text)?;
        match (imported, put) {
            (Some(Ok(())), Some(Ok(_))) | (None, _) => Ok(()),
            (Some(Err(cause)), Some(Err(fault))) if cause == fault => Ok(()),
            _ => Err(Fail::new("a mount imports an object otherwise")),
        }
    }

    /// Mounts the commit that a label names, over a copy of the store.
    fn mount(&mut self, line: &MountLine) -> Result<(), Fail> {
        let alloc = self.alloc;
        if self.mounted.is_some() {
            return self.refuse(Refusal::Mounted);
        }
        let Some(root) = self.objects.labels.get(line.label.as_bytes()) else {
            return self.refuse(Refusal::NoLabel);
        };
        let store = self.objects.store.share()?;
        match P::mount(alloc, store, root, line.generation, line.limit) {
            Ok(played) => self.mounted = Some(Mounted { played }),
            Err(fault) => match fault.cause {
                CommitFault::NoCommit => return self.refuse(Refusal::NoCommit),
                CommitFault::NoMemory => return Err(Fail::from(fault)),
            },
        }
        self.ask(&AskLine::Position)
    }

    /// Asks the mount what a line asks.
    fn ask(&mut self, line: &AskLine) -> Result<(), Fail> {
        let Some(mounted) = &mut self.mounted else {
            return self.refuse(Refusal::NotMounted);
        };
        tell_asked(self.alloc, mounted, &self.objects, line, &mut self.text)
    }

    /// Changes the mount as a line says.
    fn change(&mut self, line: &ChangeLine) -> Result<(), Fail> {
        let labels = &self.objects.labels;
        let Some(mounted) = &mut self.mounted else {
            return self.refuse(Refusal::NotMounted);
        };
        match change_of(self.alloc, labels, line) {
            Ok(change) => {
                let answer = mounted.played.change(&change)?;
                push_answer(&mut self.text, labels, &answer)?;
            }
            Err(cause) => push_refusal(&mut self.text, cause)?,
        }
        Ok(())
    }

    /// Does what a line asks for.
    fn run(&mut self, command: Command) -> Result<(), Fail> {
        match command {
            Command::Put(line) => self.put(line),
            Command::Id { label } => self.objects.tell_id(&label, &mut self.text),
            Command::Mount(line) => self.mount(&line),
            Command::Change(line) => self.change(&line),
            Command::Ask(line) => self.ask(&line),
        }
    }
}

/// The number of the first line, from 1, that a row prints otherwise when it is played, if there is one.
fn wrong_line<P: Played + Drop>(alloc: Global, row: &Row) -> Result<Option<usize>, Fail> {
    let mut player: Player<P> = Player {
        alloc,
        objects: Objects::new(alloc),
        mounted: None,
        text: Vec::new(alloc),
    };
    for line in row.script.split(';') {
        player.run(command_of(alloc, line)?)?;
    }
    let wanted = lines(alloc, row.prints)?;
    Ok(differing_line(player.text.as_slice(), wanted.as_slice()))
}

/// The name of the first row of the tables that goes another way when it is played over this, and the number of its line, if there is one.
pub fn first_wrong<P: Played + Drop>(alloc: Global) -> Result<Option<(&'static str, usize)>, Fail> {
    let rows = CHANGE_ROWS.iter().chain(ANSWER_ROWS);
    for row in rows.chain(OBJECT_ROWS).chain(LABEL_ROWS) {
        if let Some(line) = wrong_line::<P>(alloc, row)? {
            return Ok(Some((row.name, line)));
        }
    }
    Ok(None)
}
