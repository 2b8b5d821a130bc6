//! The table of worked scripts, and what each of them prints.

/// A script, and what it prints. A semicolon ends each line but the last.
#[derive(Clone, Copy)]
pub struct Row {
    /// What it is called.
    pub name: &'static str,
    /// The script.
    pub script: &'static str,
    /// What it prints.
    pub prints: &'static str,
}

/// Scripts that were worked out by hand: what changes and checkouts do, and what is told of them.
pub const CHANGE_ROWS: &[Row] = &[
    Row {
        name: "first_run",
        script: "mount empty 7 1000;since 7 1;write a plain hi;write b plain yo;remove a;since 7 1;since 7 3;since 7 4",
        prints: "at 7 1 empty;changes 0 to 7 1 empty;at 7 2 empty;at 7 3 empty;at 7 4 empty;changes 2 to 7 4 empty;Changed a;Created b;\
            changes 1 to 7 4 empty;Removed a;changes 0 to 7 4 empty",
    },
    Row {
        name: "refused_positions",
        script: "mount empty 7 1000;since 7 0;since 7 2;since 8 9",
        prints: "at 7 1 empty;refused Truncated 1;refused Ahead 1;refused Stale 7",
    },
    Row {
        name: "known_object_ids",
        // The ids here are those that `git hash-object` gives to the same bytes.
        script: "blob e \\e;id e;tree t;id t;blob h hello\\n;id h",
        prints: "ok;id e69de29bb2d1d6434b8b29ae775ad8c2e48c5391;ok;id 4b825dc642cb6eb9a060e54bf8d69288fbee4904;ok;\
            id ce013625030ba8dba906f756967f9e9ca394464a",
    },
    Row {
        name: "exec_bit_is_root",
        script: "blob b x;tree t 100644 f b;commit c t;tree u 100755 f b;commit d u;mount c 7 1000;checkout d normal;since 7 1",
        prints: "ok;ok;ok;ok;ok;at 7 1 c;at 7 2 d;conflicts 0;changes 1 to 7 2 d;Root f",
    },
    Row {
        name: "file_becomes_directory",
        script: "blob x x;tree t 100644 a x 100644 a.b x;commit c t;tree s 100644 b x;tree u 100644 a.b x 40000 a s;commit d u;\
            mount c 7 1000;checkout d normal;since 7 1",
        prints: "ok;ok;ok;ok;ok;ok;at 7 1 c;at 7 2 d;conflicts 0;changes 2 to 7 2 d;Root a;Root a/b",
    },
    Row {
        name: "tree_refusals",
        script: "blob x x;tree t 100644 a x 100644 a.b x;commit c t;tree s 100644 b x;tree e 100644 b x 100644 a x;\
            tree e 100644 a x 40000 a s;tree e 160000 a x;tree e 040000 a s;id e",
        prints: "ok;ok;ok;ok;refused OutOfOrder;refused Duplicate;refused BadMode;refused BadMode;refused NoLabel",
    },
    Row {
        name: "reset_and_back",
        script: "blob x x;blob y y;tree m 100644 p x;tree n 100644 p y;commit a m;commit b n;mount a 7 1000;write p plain y;reset b;\
            checkout a normal;since 7 2;since 7 1;read p",
        prints: "ok;ok;ok;ok;ok;ok;at 7 1 a;at 7 2 a;at 7 3 b;at 7 4 a;conflicts 0;changes 1 to 7 4 a;Root p;changes 1 to 7 4 a;\
            Changed p;plain x",
    },
    Row {
        name: "conflict_then_force",
        script: "blob x x;tree t 100644 a x;commit c t;mount empty 7 1000;write a/b plain k;checkout c normal;list;since 7 2;dirty;\
            checkout c force;list;since 7 3",
        prints: "ok;ok;ok;at 7 1 empty;at 7 2 empty;at 7 3 c;conflicts 1;a;files 1;a/b;changes 2 to 7 3 c;Root a;Root a/b;dirty 2;a;\
            a/b;at 7 4 c;conflicts 0;files 1;a;changes 2 to 7 4 c;Root a;Root a/b",
    },
    Row {
        name: "merged_writes",
        script: "mount empty 7 1000;write a plain 1;write a plain 2;write a plain 3;since 7 1;since 7 2;since 7 3;since 7 4",
        prints: "at 7 1 empty;at 7 2 empty;at 7 3 empty;at 7 4 empty;changes 1 to 7 4 empty;Created a;changes 1 to 7 4 empty;Changed a;\
            changes 1 to 7 4 empty;Changed a;changes 0 to 7 4 empty",
    },
    Row {
        name: "small_limit",
        script: "mount empty 7 200;write a plain 1;write b plain 1;write c plain 1;write d plain 1;since 7 1;since 7 2",
        prints: "at 7 1 empty;at 7 2 empty;at 7 3 empty;at 7 4 empty;at 7 5 empty;refused Truncated 2;changes 3 to 7 5 empty;Created b;\
            Created c;Created d",
    },
    Row {
        name: "small_limit: none at all",
        script: "mount empty 7 0;write a plain 1;since 7 2;since 7 1;since 7 3;since 8 9",
        prints: "at 7 1 empty;at 7 2 empty;changes 0 to 7 2 empty;refused Truncated 2;refused Ahead 2;refused Stale 7",
    },
    Row {
        name: "merged_then_dropped",
        script: "mount empty 7 130;write a plain 1;write a plain 2;write a plain 3;write b plain 1;since 7 1;since 7 3;write c plain 1;\
            since 7 3;since 7 4",
        prints: "at 7 1 empty;at 7 2 empty;at 7 3 empty;at 7 4 empty;at 7 5 empty;refused Truncated 2;changes 2 to 7 5 empty;Changed a;\
            Created b;at 7 6 empty;refused Truncated 4;changes 2 to 7 6 empty;Created b;Created c",
    },
    Row {
        name: "rename_onto_a_file",
        script: "mount empty 7 1000;write a plain 1;write b plain 2;rename a b;since 7 3;since 7 1;rename b b;rename a a",
        prints: "at 7 1 empty;at 7 2 empty;at 7 3 empty;at 7 4 empty;changes 2 to 7 4 empty;Removed a;Changed b;changes 2 to 7 4 empty;\
            Changed a;Created b;at 7 4 empty;refused NoEntry",
    },
    Row {
        name: "rename_directory",
        script: "mount empty 7 1000;write d/x plain 1;write d/y plain 2;renamedir d e;since 7 3;since 7 1;list;renamedir e e/f;\
            renamedir z q;renamedir e e;write f plain 1;renamedir e f;renamedir f g;read e/x",
        prints: "at 7 1 empty;at 7 2 empty;at 7 3 empty;at 7 4 empty;changes 0 to 7 4 empty;prefixes 2;d;e;changes 2 to 7 4 empty;\
            Created d/x;Created d/y;prefixes 2;d;e;files 2;e/x;e/y;refused IntoItself;refused NoEntry;at 7 4 empty;at 7 5 empty;\
            refused NotADirectory;refused NotADirectory;plain 1",
    },
    Row {
        name: "path_refusals",
        script: "mount empty 7 1000;write \\e plain x;write a//b plain x;write /a plain x;remove ..;rename a \\e;rename .. \\e;read a/",
        prints: "at 7 1 empty;refused Empty;refused BadComponent;refused BadComponent;refused BadComponent;refused Empty;\
            refused BadComponent;refused BadComponent",
    },
    Row {
        name: "change_refusals",
        script: "mount empty 7 1000;write a plain 1;write a/b plain 1;write d/e plain 1;write d plain 1;remove z;read d;rename a a/b",
        prints: "at 7 1 empty;at 7 2 empty;refused NotADirectory;at 7 3 empty;refused IsADirectory;refused NoEntry;\
            refused IsADirectory;refused NotADirectory",
    },
    Row {
        name: "flush_and_remount",
        script: "mount empty 7 1000;write a plain 1;flush;since 7 2;since 7 3;remount 7;remount 8;since 7 3;read a",
        prints: "at 7 1 empty;at 7 2 empty;at 7 3 empty;refused Truncated 3;changes 0 to 7 3 empty;refused GenerationNotNew;\
            at 8 1 empty;refused Stale 8;plain 1",
    },
    Row {
        name: "checkout_modes",
        script: "blob x x;tree t 100644 a x;commit c t;mount empty 7 1000;write a plain z;checkout c dry;checkout c normal;read a;\
            checkout c force;read a",
        prints: "ok;ok;ok;at 7 1 empty;at 7 2 empty;at 7 2 empty;conflicts 1;a;at 7 3 c;conflicts 1;a;plain z;at 7 4 c;conflicts 0;\
            plain x",
    },
    Row {
        name: "a limit that just pays for two runs",
        script: "mount empty 7 130;write a plain 1;write a plain 2;write a plain 3;since 7 1;since 7 2;since 7 3;since 7 4",
        prints: "at 7 1 empty;at 7 2 empty;at 7 3 empty;at 7 4 empty;changes 1 to 7 4 empty;Created a;changes 1 to 7 4 empty;Changed a;\
            changes 1 to 7 4 empty;Changed a;changes 0 to 7 4 empty",
    },
    Row {
        name: "import_then_checkout",
        script: "mount empty 7 1000;blob x x;tree t 100644 a x;commit c t;checkout c normal;since 7 1;blob y y;tree u 100644 a y;\
            commit d u;checkout d normal;since 7 2;mount c 7 1",
        prints: "at 7 1 empty;ok;ok;ok;at 7 2 c;conflicts 0;changes 1 to 7 2 c;Root a;ok;ok;ok;at 7 3 d;conflicts 0;\
            changes 1 to 7 3 d;Root a;refused Mounted",
    },
];

/// What is told of marks, questions, refusals, patterns and texts.
pub const ANSWER_ROWS: &[Row] = &[
    Row {
        name: "marks by the first and the last change",
        script: "mount empty 7 1000;write c plain 1;write d plain 1;write a plain 1;write b plain 1;write b plain 1;write c plain 1;\
            remove d;remove c;remove a;write d plain 1;since 7 3",
        prints: "at 7 1 empty;at 7 2 empty;at 7 3 empty;at 7 4 empty;at 7 5 empty;at 7 6 empty;at 7 7 empty;at 7 8 empty;at 7 9 empty;\
            at 7 10 empty;at 7 11 empty;changes 4 to 7 11 empty;Changed a;Created b;Removed c;Changed d",
    },
    Row {
        name: "kinds and a large generation",
        script: "mount empty 18446744073709551615 1000;write a exec 1;write a link 2;read a;remove a;write b plain 1;write b exec 2;\
            read b;since 18446744073709551615 1;since 18446744073709551615 2",
        prints: "at 18446744073709551615 1 empty;at 18446744073709551615 2 empty;at 18446744073709551615 3 empty;link 2;\
            at 18446744073709551615 4 empty;at 18446744073709551615 5 empty;at 18446744073709551615 6 empty;exec 2;\
            changes 2 to 18446744073709551615 6 empty;Changed a;Created b;changes 2 to 18446744073709551615 6 empty;Removed a;\
            Created b",
    },
    Row {
        name: "more refusals of changes",
        script: "blob x x;mount empty 7 1000;write d/e plain 1;remove d;rename d f;rename z d;rename d/e d;reset x;checkout x force;\
            remount 7;since 7 2",
        prints: "ok;at 7 1 empty;at 7 2 empty;refused IsADirectory;refused IsADirectory;refused NoEntry;refused IsADirectory;\
            refused NoCommit;refused NoCommit;refused GenerationNotNew;changes 0 to 7 2 empty",
    },
    Row {
        name: "contents of now",
        script: "mount empty 7 1000;read a;write a plain 1;read a;read a/b;write a exec 2;read a;remove a;read a",
        prints: "at 7 1 empty;refused NoEntry;at 7 2 empty;plain 1;refused NotADirectory;at 7 3 empty;exec 2;at 7 4 empty;\
            refused NoEntry",
    },
    Row {
        name: "files of now",
        script: "mount empty 7 0;write b plain 1;write d/x plain 1;write a plain 1;list;remove b;list;remount 8;list;since 8 1;position",
        prints: "at 7 1 empty;at 7 2 empty;at 7 3 empty;at 7 4 empty;files 3;a;b;d/x;at 7 5 empty;files 2;a;d/x;at 8 1 empty;files 2;a;\
            d/x;changes 0 to 8 1 empty;at 8 1 empty",
    },
    Row {
        name: "contents after a conflict and after force",
        script: "blob x x;tree t 100644 a x;commit c t;mount empty 7 1000;write a/b plain k;checkout c normal;read a;read a/b;\
            checkout c force;read a;read a/b",
        prints: "ok;ok;ok;at 7 1 empty;at 7 2 empty;at 7 3 c;conflicts 1;a;refused IsADirectory;plain k;at 7 4 c;conflicts 0;plain x;\
            refused NotADirectory",
    },
    Row {
        name: "questions and their refusals",
        script: "position;list;dirty;mount empty 7 1000;position;list;list a;list [a];read ..;rename .. \\e;reset z;checkout z dry;\
            dirty;write b link t;read b;list",
        prints: "refused NotMounted;refused NotMounted;refused NotMounted;at 7 1 empty;at 7 1 empty;files 0;files 0;\
            refused BadPattern 0;refused BadComponent;refused BadComponent;refused NoLabel;refused NoLabel;dirty 0;at 7 2 empty;\
            link t;files 1;b",
    },
    Row {
        name: "patterns",
        script: "mount empty 7 1000;write dir/a plain 1;write dir/sub/b plain 1;write x plain 1;write [a plain 1;list dir/**;list *;\
            list **/b;list dir/? x;list \\\\[a;list [a];list x [a];list dir//a;list x \\e",
        prints: "at 7 1 empty;at 7 2 empty;at 7 3 empty;at 7 4 empty;at 7 5 empty;files 2;dir/a;dir/sub/b;files 2;[a;x;files 1;\
            dir/sub/b;files 2;dir/a;x;files 1;[a;refused BadPattern 0;refused BadPattern 1;refused BadPattern 0;\
            refused BadPattern 1",
    },
    Row {
        name: "escapes",
        script: "mount empty 7 1000;write a\\sb plain \\\\\\n;read a\\sb;wr\\eite \\\\\\e link \\e;read \\\\;since 7 1",
        prints: "at 7 1 empty;at 7 2 empty;plain \\\\\\n;at 7 3 empty;link \\e;changes 2 to 7 3 empty;Created \\\\;Created a\\sb",
    },
    Row {
        name: "one mount",
        script: "write a plain x;remove ..;since 7 1;mount c 7 1000;mount empty 7 1000;mount c 8 1;mount empty 8 1;since 7 1",
        prints: "refused NotMounted;refused NotMounted;refused NotMounted;refused NoLabel;at 7 1 empty;refused Mounted;refused Mounted;\
            changes 0 to 7 1 empty",
    },
];

/// Objects: their ids, and what of a tree or a commit is refused, and before what.
pub const OBJECT_ROWS: &[Row] = &[
    Row {
        name: "ids of a tree of files and its commit",
        script: "blob x x;id x;tree t 100644 a x 100644 a.b x;id t;commit c t;id c",
        prints: "ok;id c1b0730e0133447badcfd47fd144e254807b06e1;ok;id e52e15910c802415cf6b133c0d5c9da62512d826;ok;\
            id e7fd37f555674b0b3c7e467c9084da3a828bba0b",
    },
    Row {
        name: "ids of a tree of each mode, with a directory behind a longer name and a space in a name",
        script: "blob x x;tree s 100644 b x;id s;tree u 100644 a.b x 40000 a s;id u;blob h hello\\n;\
            tree k 100755 a\\sb x 120000 l h 40000 z u;id k",
        prints: "ok;ok;id da981995a0f17908b3f6795c1e0c28a7e96b8a11;ok;id eaee5e3f72d5e67852735e59d7057de350f457ed;ok;ok;\
            id 6db7b43b3e4705c143c98cc96ebe6a24e5006168",
    },
    Row {
        name: "ids of a commit of the empty tree, and of escapes",
        script: "tree t;commit c t;id c;blob b a\\sb\\\\\\n;id b",
        prints: "ok;ok;id e43fc45fe9861f11199bfc430939749be99df922;ok;id dc2d86a9bf8c85c0244d60d7e18d6bc0be6c6a9b",
    },
    Row {
        name: "the mode ends at its first space",
        script: "blob x x;tree t 100644\\s a x;id t",
        prints: "ok;ok;id d8fbb3f9d7fafc98961fa52cf3a383ac9a2dff8a",
    },
    Row {
        name: "orders of a tree's names",
        script: "blob x x;tree t 100644 a x 100644 a.b x;commit c t;tree s 100644 b x;tree e 40000 a s 100644 a.b x;\
            tree e 100644 a x 100755 a x;tree e 40000 a s 100644 a x;tree e 100644 a x 100644 a.b x 40000 a s;\
            tree e 100644 b x 100644 c x 100644 b x;id e",
        prints: "ok;ok;ok;ok;refused OutOfOrder;refused Duplicate;refused Duplicate;refused Duplicate;refused Duplicate;refused NoLabel",
    },
    Row {
        name: "modes and names of a tree's entries",
        script: "blob x x;tree t 100644 a x 100644 a.b x;commit c t;tree s 100644 b x;tree e 100664 a x;tree e \\e a x;\
            tree e 100644 \\e x;tree e 100644 a/b x;tree e 100644 . x;tree e 100644 .. x;id e",
        prints: "ok;ok;ok;ok;refused BadMode;refused BadMode;refused BadName;refused BadName;refused BadName;refused BadName;\
            refused NoLabel",
    },
    Row {
        name: "what a tree's entry and a commit name",
        // NUL ends a name: behind it the id is another one.
        script: "blob x x;tree t 100644 a x 100644 a.b x;commit c t;tree s 100644 b x;tree e 40000 a x;tree e 40000 a c;\
            tree e 100644 a s;tree e 100644 a c;tree e 40000 a empty;tree e 100644 a empty;tree e 100644 a\0 x;commit e x;\
            commit e c;commit e empty;id e",
        prints: "ok;ok;ok;ok;refused WrongChildKind;refused WrongChildKind;refused WrongChildKind;refused WrongChildKind;\
            refused MissingChild;refused MissingChild;refused MissingChild;refused WrongChildKind;refused WrongChildKind;\
            refused MissingChild;refused NoLabel",
    },
    Row {
        name: "labels before faults",
        script: "blob x x;tree t 100644 a x 100644 a.b x;commit c t;tree s 100644 b x;tree e 100644 a x 100644 b y;\
            tree e 160000 a x 100644 b y;tree e 40000 a e;commit e y;mount y 7 1;mount t 7 1;id e",
        prints: "ok;ok;ok;ok;refused NoLabel;refused NoLabel;refused NoLabel;refused NoLabel;refused NoLabel;refused NoCommit;\
            refused NoLabel",
    },
    Row {
        name: "in an entry the mode, the name, the order and then the object",
        script: "blob x x;tree t 100644 a x 100644 a.b x;commit c t;tree s 100644 b x;tree e 160000 .. s;tree e 160000 a empty;\
            tree e 100644 .. s;tree e 100644 .. empty;tree e 100644 b x 40000 b x;tree e 100644 b x 100644 b s;\
            tree e 100644 b x 100644 b empty;tree e 100644 b x 40000 a x;tree e 100644 b x 100644 a s;\
            tree e 100644 b x 100644 a empty;tree e 100644 b x 40000 c x;id e",
        prints: "ok;ok;ok;ok;refused BadMode;refused BadMode;refused BadName;refused BadName;refused Duplicate;refused Duplicate;\
            refused Duplicate;refused OutOfOrder;refused OutOfOrder;refused OutOfOrder;refused WrongChildKind;refused NoLabel",
    },
    Row {
        name: "the first entry with a fault decides",
        script: "blob x x;tree t 100644 a x 100644 a.b x;commit c t;tree s 100644 b x;tree e 100644 b x 100644 a x 100644 a x;\
            tree e 100644 b x 100644 a x 160000 c x;tree e 160000 b x 100644 a x;tree e 100644 a s 160000 a/b empty;\
            tree e 100644 a x 100644 b empty 100644 a x;id e",
        prints: "ok;ok;ok;ok;refused OutOfOrder;refused OutOfOrder;refused BadMode;refused WrongChildKind;refused MissingChild;\
            refused NoLabel",
    },
];

/// Labels: what binds them, and in which order the lines of a script are refused.
pub const LABEL_ROWS: &[Row] = &[
    Row {
        name: "a blob can't be mounted",
        script: "blob x x;mount x 7 1;mount empty 7 1",
        prints: "ok;refused NoCommit;at 7 1 empty",
    },
    Row {
        name: "a label is bound again",
        script: "blob b x;id b;blob b y;id b;tree b 100644 a b;commit b b;tree t 100644 a b",
        prints: "ok;id c1b0730e0133447badcfd47fd144e254807b06e1;ok;id e25f1814e51579d5f55c0f1fe0135ddb28a47f4a;ok;ok;\
            refused WrongChildKind",
    },
    Row {
        name: "a put that is refused binds nothing",
        script: "blob b x;tree b 160000 a b;id b;commit d b;id d",
        prints: "ok;refused BadMode;id c1b0730e0133447badcfd47fd144e254807b06e1;refused WrongChildKind;refused NoLabel",
    },
    Row {
        name: "an object that is there already is bound too",
        script: "blob a x;blob b x;id b;tree t;tree u;id u",
        prints: "ok;ok;id c1b0730e0133447badcfd47fd144e254807b06e1;ok;ok;id 4b825dc642cb6eb9a060e54bf8d69288fbee4904",
    },
    Row {
        name: "the empty commit's label",
        script: "id empty;blob b x;id empty;mount empty 7 1;id empty",
        prints: "id 0000000000000000000000000000000000000000;ok;id 0000000000000000000000000000000000000000;at 7 1 empty;\
            id 0000000000000000000000000000000000000000",
    },
    Row {
        name: "the longest label, and digits",
        script: "blob abcdefghijklmnopqrstuvwxyz012345 x;id abcdefghijklmnopqrstuvwxyz012345;blob 0 x;id 0;id 1",
        prints: "ok;id c1b0730e0133447badcfd47fd144e254807b06e1;ok;id c1b0730e0133447badcfd47fd144e254807b06e1;refused NoLabel",
    },
    Row {
        name: "objects after the mount",
        script: "blob x x;mount empty 7 1;blob y y;tree t;tree u 160000 a z;tree u 160000 a y;commit c x;commit c z;id y;id t;id x;\
            id u;position",
        prints: "ok;at 7 1 empty;ok;ok;refused NoLabel;refused BadMode;refused WrongChildKind;refused NoLabel;\
            id e25f1814e51579d5f55c0f1fe0135ddb28a47f4a;id 4b825dc642cb6eb9a060e54bf8d69288fbee4904;\
            id c1b0730e0133447badcfd47fd144e254807b06e1;refused NoLabel;at 7 1 empty",
    },
    Row {
        name: "a second mount is refused before its label",
        script: "blob x x;mount empty 7 1;mount y 7 1;mount x 7 1;mount empty 7 1",
        prints: "ok;at 7 1 empty;refused Mounted;refused Mounted;refused Mounted",
    },
    Row {
        name: "before the mount its lines are refused before their paths",
        script: "blob x x;write a plain x;write .. plain x;remove ..;since 7 1;mount x 7 1;mount y 7 1;remove a;mount empty 7 1;\
            remove ..",
        prints: "ok;refused NotMounted;refused NotMounted;refused NotMounted;refused NotMounted;refused NoCommit;refused NoLabel;\
            refused NotMounted;at 7 1 empty;refused BadComponent",
    },
];
