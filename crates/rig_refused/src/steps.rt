//! Rows of the table of worked scripts, as calls of a mount.

use eden_history::Mode;

/// A commit of one plain file: what it is called, the file's path, and what it holds.
pub(crate) type OneFile = (&'static str, &'static str, &'static str);

/// What is done to a mount, or asked of it.
#[derive(Clone, Copy)]
pub(crate) enum Step {
    /// A plain file is written at a path, with this text.
    Write(&'static str, &'static str),
    /// The files of a directory are moved below another.
    RenameDir(&'static str, &'static str),
    /// The objects of a commit are imported.
    Import(OneFile),
    /// The mount goes over to a commit.
    Checkout(&'static str, Mode),
    /// It goes over to a commit, and leaves the files as they are.
    Reset(&'static str),
    /// It is asked for its files.
    List,
    /// And for those that differ from the commit's.
    Dirty,
    /// And for what changed since a number of its generation.
    Since(u64),
    /// And for the file at a path.
    Read(&'static str),
}

/// A mount in generation 7, the commits that its store has before it is mounted, which one it is of, and what is done then.
pub(crate) struct Opening {
    pub(crate) commits: &'static [OneFile],
    pub(crate) root: &'static str,
    pub(crate) steps: &'static [Step],
}

/// The row `conflict_then_force`.
pub(crate) const CONFLICT_THEN_FORCE: Opening = Opening {
    commits: &[("c", "a", "x")],
    root: "empty",
    steps: &[
        Step::Write("a/b", "k"),
        Step::Checkout("c", Mode::Normal),
        Step::List,
        Step::Since(2),
        Step::Dirty,
        Step::Checkout("c", Mode::Force),
        Step::List,
        Step::Since(3),
    ],
};

/// The row `reset_and_back`.
pub(crate) const RESET_AND_BACK: Opening = Opening {
    commits: &[("a", "p", "x"), ("b", "p", "y")],
    root: "a",
    steps: &[
        Step::Write("p", "y"),
        Step::Reset("b"),
        Step::Checkout("a", Mode::Normal),
        Step::Since(2),
        Step::Since(1),
        Step::Read("p"),
    ],
};

/// The row `rename_directory`.
pub(crate) const RENAME_DIRECTORY: Opening = Opening {
    commits: &[],
    root: "empty",
    steps: &[
        Step::Write("d/x", "1"),
        Step::Write("d/y", "2"),
        Step::RenameDir("d", "e"),
        Step::Since(3),
        Step::Since(1),
        Step::List,
        Step::RenameDir("e", "e/f"),
        Step::RenameDir("z", "q"),
        Step::RenameDir("e", "e"),
        Step::Write("f", "1"),
        Step::RenameDir("e", "f"),
        Step::RenameDir("f", "g"),
        Step::Read("e/x"),
    ],
};

/// The row `import_then_checkout`.
pub(crate) const IMPORT_THEN_CHECKOUT: Opening = Opening {
    commits: &[],
    root: "empty",
    steps: &[
        Step::Import(("c", "a", "x")),
        Step::Checkout("c", Mode::Normal),
        Step::Since(1),
        Step::Import(("d", "a", "y")),
        Step::Checkout("d", Mode::Normal),
        Step::Since(2),
    ],
};
