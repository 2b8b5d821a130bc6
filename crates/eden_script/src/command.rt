//! The commands of a script.

use crate::label::Label;
use crate::lines::Word;
use eden_history::Mode;
use eden_ids::{Kind, Sequence};

/// An entry of a tree, as a line gives it.
///
/// The mode and the name are the words of the line, with their escapes undone. They go
/// into the tree's payload unchanged.
#[derive(Drop)]
pub struct TreeEntry {
    /// The mode, not checked.
    pub mode: Word,
    /// The name, not checked.
    pub name: Word,
    /// The label of the object.
    pub label: Label,
}

/// What a line of a script asks for.
///
/// Paths and contents are the words of the line, with their escapes undone.
#[derive(Drop)]
pub enum Command {
    /// Puts an object, and binds a label to it.
    Put(PutLine),
    /// Asks for the id that a label is bound to.
    Id {
        /// The label.
        label: Label,
    },
    /// Mounts a commit.
    Mount(MountLine),
    /// Changes a mount.
    Change(ChangeLine),
    /// Asks a mount.
    Ask(AskLine),
}

/// A line that puts an object, and binds a label to it.
#[derive(Drop)]
pub enum PutLine {
    /// Puts a blob.
    Blob {
        /// The label, not `empty`.
        label: Label,
        /// The blob's payload.
        bytes: Word,
    },
    /// Puts a tree.
    Tree {
        /// The label, not `empty`.
        label: Label,
        /// The tree's entries, in the order of the line.
        entries: Sequence<TreeEntry>,
    },
    /// Puts a commit.
    Commit {
        /// The label, not `empty`.
        label: Label,
        /// The label of the commit's tree.
        tree: Label,
    },
}

/// A line that mounts a commit.
#[derive(Drop)]
pub struct MountLine {
    /// The label of the commit.
    pub label: Label,
    /// The mount's generation.
    pub generation: u64,
    /// The most bytes that the mount's journal may hold.
    pub limit: u64,
}

/// A line that changes a mount.
#[derive(Drop)]
pub enum ChangeLine {
    /// Sets the file at a path.
    Write {
        /// The path, not checked yet.
        path: Word,
        /// The file's new kind.
        kind: Kind,
        /// The file's new bytes.
        bytes: Word,
    },
    /// Removes the file at a path.
    Remove {
        /// The path, not checked yet.
        path: Word,
    },
    /// Moves a file to another path.
    Rename {
        /// The file's path now, not checked yet.
        old: Word,
        /// The file's new path, not checked yet.
        new: Word,
    },
    /// Moves each file below one path to the same place below another.
    RenameDir {
        /// The directory's path now, not checked yet.
        old: Word,
        /// The directory's new path, not checked yet.
        new: Word,
    },
    /// Moves the root to another commit, and leaves the files.
    Reset {
        /// The label of the commit.
        label: Label,
    },
    /// Drops what the journal holds.
    Flush,
    /// Begins another generation.
    Remount {
        /// The generation.
        generation: u64,
    },
    /// Checks out another commit, and changes the files as the mode says.
    Checkout {
        /// The label of the commit.
        label: Label,
        /// How files that were changed are treated.
        mode: Mode,
    },
}

/// A line that asks a mount.
#[derive(Drop)]
pub enum AskLine {
    /// Asks for the present position.
    Position,
    /// Asks for the paths of the files.
    ListFiles {
        /// The patterns of a filter, not checked yet.
        ///
        /// Without patterns all files are listed.
        patterns: Sequence<Word>,
    },
    /// Asks for the paths at which the files differ from the commit's.
    Dirty,
    /// Asks for the file at a path.
    Read {
        /// The path, not checked yet.
        path: Word,
    },
    /// Asks what changed since a position.
    Since {
        /// The position's generation.
        generation: u64,
        /// The position's sequence number.
        sequence: u64,
    },
}
