//! Commands, read from the words of a line.

ghost use Rattle.std.specs.Prelude.{◌≡◌, ◌<◌, length, IfOk, OnSome};
ghost use Rattle.eden_ids.specs.Sameness.{same_bytes};
ghost use Rattle.eden_script.specs.ScriptLines.{kind_of, mode_of, entry_of, entry_before, entries_of, tree_of, ask_of, change_of, first_of, command_of};

use crate::command::{AskLine, ChangeLine, Command, MountLine, PutLine, TreeEntry};
use crate::label::Label;
use crate::lines::Word;
use crate::unread::Unread;
use eden_git::number;
use eden_history::Mode;
use eden_ids::{Kind, Sequence};
use std::alloc::{AllocError, Global};

/// Returns true if a word is this name.
fn is_named(word: &Word, name: &[u8]) -> bool
    ensures { result ≡ same_bytes word.now name.now }
{
    word.as_bytes() == name
}

/// Reads the kind of a file: `plain`, `exec` or `link`.
fn read_kind(word: &Word) -> Option<Kind>
    ensures { result ≡ kind_of word.now }
{
    if is_named(word, b"plain".as_slice()) {
        Some(Kind::Plain)
    } else if is_named(word, b"exec".as_slice()) {
        Some(Kind::Exec)
    } else if is_named(word, b"link".as_slice()) {
        Some(Kind::Link)
    } else {
        None
    }
}

/// Reads the mode of a checkout: `normal`, `force` or `dry`.
fn read_mode(word: &Word) -> Option<Mode>
    ensures { result ≡ mode_of word.now }
{
    if is_named(word, b"normal".as_slice()) {
        Some(Mode::Normal)
    } else if is_named(word, b"force".as_slice()) {
        Some(Mode::Force)
    } else if is_named(word, b"dry".as_slice()) {
        Some(Mode::Dry)
    } else {
        None
    }
}

/// Reads an entry of a tree from its three words.
fn read_entry(mode: Word, name: Word, label: Word) -> Option<TreeEntry>
    ensures { result ≡ entry_of mode name label }
{
    let label = Label::read(label)?;
    Some(TreeEntry { mode, name, label })
}

/// Takes the first three words and returns their entry.
fn take_entry(words: &mut Unread) -> Option<TreeEntry>
    requires { 0 < length words.old }
    ensures reads { entries_of words.old ≡ entry_before result (entries_of words.new) }
    ensures takes { OnSome result (length words.new < length words.old) }
{
    if words.len() < 3 {
        return None;
    }
    let mode = words.take();
    let name = words.take();
    read_entry(mode, name, words.take())
}

/// Reads words as entries of a tree, three words each.
#[tactic(auto, using(crate::proofs::EntryLemmas::one_more, crate::proofs::EntryLemmas::none_before, crate::proofs::EntryLemmas::all_read))]
fn read_entries(alloc: Global, mut words: Unread) -> Result<Option<Sequence<TreeEntry>>, AllocError>
    ensures { IfOk result (λ entries. entries ≡ entries_of words) }
{
    let mut entries = Vec::new(alloc);
    while words.len() > 0 {
        match take_entry(&mut words) {
            Some(entry) => entries.push(entry)?,
            None => return Ok(None),
        }
    }
    Ok(Some(Sequence::from_vec(entries)))
}

/// Reads a tree's line, by the words after its first.
fn read_tree(alloc: Global, mut words: Unread) -> Result<Option<PutLine>, AllocError>
    ensures { IfOk result (λ line. line ≡ tree_of words) }
{
    if words.len() == 0 {
        return Ok(None);
    }
    let label = Label::read_to_bind(words.take());
    match (label, read_entries(alloc, words)?) {
        (Some(label), Some(entries)) => Ok(Some(PutLine::Tree { label, entries })),
        _ => Ok(None),
    }
}

/// Reads a line for a blob, commit, id or mount.
#[tactic(auto, using(crate::proofs::RowLemmas::not_none, crate::proofs::RowLemmas::not_one, crate::proofs::RowLemmas::not_two, crate::proofs::RowLemmas::not_three))]
fn read_first(first: &Word, words: Unread) -> Option<Command>
    ensures { result ≡ first_of first.now words }
{
    if is_named(first, b"blob".as_slice()) {
        let (label, bytes) = words.two()?;
        let label = Label::read_to_bind(label)?;
        Some(Command::Put(PutLine::Blob { label, bytes }))
    } else if is_named(first, b"commit".as_slice()) {
        let (label, tree) = words.two()?;
        let label = Label::read_to_bind(label)?;
        let tree = Label::read(tree)?;
        Some(Command::Put(PutLine::Commit { label, tree }))
    } else if is_named(first, b"id".as_slice()) {
        let label = Label::read(words.one()?)?;
        Some(Command::Id { label })
    } else if is_named(first, b"mount".as_slice()) {
        let (label, generation, limit) = words.three()?;
        let label = Label::read(label)?;
        let generation = number(generation.as_bytes())?;
        let limit = number(limit.as_bytes())?;
        Some(Command::Mount(MountLine {
            label,
            generation,
            limit,
        }))
    } else {
        None
    }
}

/// Reads a line that changes a mount, or one of `read_first`.
#[tactic(auto, using(crate::proofs::RowLemmas::not_none, crate::proofs::RowLemmas::not_one, crate::proofs::RowLemmas::not_two, crate::proofs::RowLemmas::not_three))]
fn read_change(first: &Word, words: Unread) -> Option<Command>
    ensures { result ≡ change_of first.now words }
{
    if is_named(first, b"write".as_slice()) {
        let (path, kind, bytes) = words.three()?;
        let kind = read_kind(&kind)?;
        Some(Command::Change(ChangeLine::Write { path, kind, bytes }))
    } else if is_named(first, b"remove".as_slice()) {
        let path = words.one()?;
        Some(Command::Change(ChangeLine::Remove { path }))
    } else if is_named(first, b"rename".as_slice()) {
        let (old, new) = words.two()?;
        Some(Command::Change(ChangeLine::Rename { old, new }))
    } else if is_named(first, b"renamedir".as_slice()) {
        let (old, new) = words.two()?;
        Some(Command::Change(ChangeLine::RenameDir { old, new }))
    } else if is_named(first, b"reset".as_slice()) {
        let label = Label::read(words.one()?)?;
        Some(Command::Change(ChangeLine::Reset { label }))
    } else if is_named(first, b"flush".as_slice()) {
        words.none()?;
        Some(Command::Change(ChangeLine::Flush))
    } else if is_named(first, b"remount".as_slice()) {
        let generation = number(words.one()?.as_bytes())?;
        Some(Command::Change(ChangeLine::Remount { generation }))
    } else if is_named(first, b"checkout".as_slice()) {
        let (label, mode) = words.two()?;
        let label = Label::read(label)?;
        let mode = read_mode(&mode)?;
        Some(Command::Change(ChangeLine::Checkout { label, mode }))
    } else {
        read_first(first, words)
    }
}

/// Reads any line but that of a tree.
///
/// Only a tree's line needs an allocation. A mount is changed and asked more often than
/// it is made, so those lines are tried first.
#[tactic(auto, using(crate::proofs::RowLemmas::not_none, crate::proofs::RowLemmas::not_one, crate::proofs::RowLemmas::not_two, crate::proofs::RowLemmas::not_three))]
fn read_ask(first: &Word, words: Unread) -> Option<Command>
    ensures { result ≡ ask_of first.now words }
{
    if is_named(first, b"position".as_slice()) {
        words.none()?;
        Some(Command::Ask(AskLine::Position))
    } else if is_named(first, b"list".as_slice()) {
        let patterns = Sequence::from_vec(words.into_words());
        Some(Command::Ask(AskLine::ListFiles { patterns }))
    } else if is_named(first, b"dirty".as_slice()) {
        words.none()?;
        Some(Command::Ask(AskLine::Dirty))
    } else if is_named(first, b"read".as_slice()) {
        let path = words.one()?;
        Some(Command::Ask(AskLine::Read { path }))
    } else if is_named(first, b"since".as_slice()) {
        let (generation, sequence) = words.two()?;
        let generation = number(generation.as_bytes())?;
        let sequence = number(sequence.as_bytes())?;
        Some(Command::Ask(AskLine::Since {
            generation,
            sequence,
        }))
    } else {
        read_change(first, words)
    }
}

impl Command {
    /// Reads the words of a line, if they are valid.
    ///
    /// It returns `None` if the words are not in the table of lines. They are not if the
    /// first word is unknown, the number of words is wrong, or a number, a kind, a mode
    /// or a label is invalid. Paths, patterns and the parts of a tree's entries are not
    /// checked.
    ///
    /// # Errors
    ///
    /// - `AllocError` if an allocation fails.
    pub fn read(alloc: Global, words: Vec<Word>) -> Result<Option<Command>, AllocError>
        ensures { IfOk result (λ command. command ≡ command_of words.items) }
    {
        let mut words = Unread::new(words);
        if words.len() == 0 {
            return Ok(None);
        }
        let first = words.take();
        if !is_named(&first, b"tree".as_slice()) {
            return Ok(read_ask(&first, words));
        }
        match read_tree(alloc, words)? {
            Some(line) => Ok(Some(Command::Put(line))),
            None => Ok(None),
        }
    }
}
