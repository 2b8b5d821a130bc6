//! Why a line of a script can't be read, in words for a person.

ghost use Rattle.std.specs.Prelude.{◌≡◌, is_none, is_some, option_and_then, IfOk};
ghost use Rattle.eden_script.specs.ScriptLines.{command_of};
ghost use Rattle.eden_script.specs.Words.{words_of};

use bstr::ByteSlice;
use eden_script::{Command, words};
use std::alloc::{AllocError, Global};
use std::fmt;

/// What a word of a line has to be, with the name that the usage gives it.
#[derive(Clone, Copy, Debug)]
pub(crate) enum Field {
    /// Any bytes.
    Any,
    /// A label.
    Label(&'static str),
    /// A label that an object may be bound to.
    NewLabel,
    /// A number.
    Number(&'static str),
    /// The kind of a file.
    Kind,
    /// The mode of a checkout.
    Mode,
}

/// Returns true if a line of a script can be read.
fn is_read(alloc: Global, line: &[u8]) -> Result<bool, AllocError>
    ensures { IfOk result (λ read. read ≡ is_some (option_and_then command_of (words_of line.now))) }
{
    match words(alloc, line)? {
        Some(words) => Ok(Command::read(alloc, words)?.is_some()),
        None => Ok(false),
    }
}

impl Field {
    /// Returns true if this may be such a word.
    ///
    /// It may if a line of it and of other words that are right can be read.
    fn admits(self, alloc: Global, word: &[u8]) -> Result<bool, AllocError> {
        let (front, behind) = match self {
            Field::Any => return Ok(true),
            Field::Label(_) => ("id ", ""),
            Field::NewLabel => ("blob ", " a"),
            Field::Number(_) => ("remount ", ""),
            Field::Kind => ("write a ", " a"),
            Field::Mode => ("checkout a ", ""),
        };
        let mut line = front.as_bytes().to_vec(alloc)?;
        line.extend_from_slice(word)?;
        line.extend_from_slice(behind.as_bytes())?;
        is_read(alloc, line.as_slice())
    }
}

impl fmt::Display for Field {
    fn fmt<W: fmt::Write>(&self, f: &mut fmt::Formatter<W>) -> fmt::Result {
        match self {
            Field::Any => f.write_str("a word may be any bytes"),
            Field::Label(name) => write!(f, "{name} must be a label, 1 to 32 of a to z and 0 to 9"),
            Field::NewLabel => f.write_str(
                "L must be a label, 1 to 32 of a to z and 0 to 9, other than `empty`",
            ),
            Field::Number(name) => write!(
                f,
                "{name} must be a decimal number from 0 to 18446744073709551615 with no sign and no leading zero"
            ),
            Field::Kind => f.write_str("KIND must be plain, exec or link"),
            Field::Mode => f.write_str("MODE must be normal, force or dry"),
        }
    }
}

/// How the lines with a first word go on.
struct Row {
    name: &'static str,
    usage: &'static str,
    /// The words after the first.
    fields: &'static [Field],
    /// The words that may follow any number of times.
    more: &'static [Field],
}

const ROWS: &[Row] = &[
    Row {
        name: "blob",
        usage: "blob L TEXT",
        fields: &[Field::NewLabel, Field::Any],
        more: &[],
    },
    Row {
        name: "tree",
        usage: "tree L [MODE NAME LABEL]..",
        fields: &[Field::NewLabel],
        more: &[Field::Any, Field::Any, Field::Label("LABEL")],
    },
    Row {
        name: "commit",
        usage: "commit L TREE",
        fields: &[Field::NewLabel, Field::Label("TREE")],
        more: &[],
    },
    Row {
        name: "id",
        usage: "id L",
        fields: &[Field::Label("L")],
        more: &[],
    },
    Row {
        name: "mount",
        usage: "mount L GENERATION LIMIT",
        fields: &[
            Field::Label("L"),
            Field::Number("GENERATION"),
            Field::Number("LIMIT"),
        ],
        more: &[],
    },
    Row {
        name: "write",
        usage: "write PATH KIND TEXT",
        fields: &[Field::Any, Field::Kind, Field::Any],
        more: &[],
    },
    Row {
        name: "remove",
        usage: "remove PATH",
        fields: &[Field::Any],
        more: &[],
    },
    Row {
        name: "rename",
        usage: "rename OLD NEW",
        fields: &[Field::Any, Field::Any],
        more: &[],
    },
    Row {
        name: "renamedir",
        usage: "renamedir OLD NEW",
        fields: &[Field::Any, Field::Any],
        more: &[],
    },
    Row {
        name: "reset",
        usage: "reset L",
        fields: &[Field::Label("L")],
        more: &[],
    },
    Row {
        name: "checkout",
        usage: "checkout L MODE",
        fields: &[Field::Label("L"), Field::Mode],
        more: &[],
    },
    Row {
        name: "flush",
        usage: "flush",
        fields: &[],
        more: &[],
    },
    Row {
        name: "remount",
        usage: "remount GENERATION",
        fields: &[Field::Number("GENERATION")],
        more: &[],
    },
    Row {
        name: "position",
        usage: "position",
        fields: &[],
        more: &[],
    },
    Row {
        name: "list",
        usage: "list [PATTERN]..",
        fields: &[],
        more: &[Field::Any],
    },
    Row {
        name: "dirty",
        usage: "dirty",
        fields: &[],
        more: &[],
    },
    Row {
        name: "read",
        usage: "read PATH",
        fields: &[Field::Any],
        more: &[],
    },
    Row {
        name: "since",
        usage: "since GENERATION SEQUENCE",
        fields: &[Field::Number("GENERATION"), Field::Number("SEQUENCE")],
        more: &[],
    },
];

impl Row {
    /// Returns true if a line may have this number of words after its first.
    fn admits_count(&self, count: usize) -> bool {
        match count.checked_sub(self.fields.len()) {
            Some(more) => more.checked_rem(self.more.len()).unwrap_or(more) == 0,
            None => false,
        }
    }

    /// Returns what the word at a place after the first has to be.
    fn field(&self, place: usize) -> Field {
        if let Some(field) = self.fields.get(place) {
            return *field;
        }
        let place = place
            .saturating_sub(self.fields.len())
            .checked_rem(self.more.len());
        match self.more.get(place.unwrap_or(0)) {
            Some(field) => *field,
            None => Field::Any,
        }
    }
}

/// The most characters of a word that are shown.
const SHOWN: usize = 60;

/// Bytes from outside, as a person may see them on a terminal: short, and without control
/// characters.
#[derive(Clone, Copy, Debug)]
pub(crate) struct Excerpt<'a>(pub(crate) &'a [u8]);

impl<'a> fmt::Display for Excerpt<'a> {
    fn fmt<W: fmt::Write>(&self, f: &mut fmt::Formatter<W>) -> fmt::Result {
        let mut rest = self.0.chars();
        for _ in 0..SHOWN {
            match rest.next() {
                Some(shown) if shown.is_control() => f.write_char('?')?,
                Some(shown) => f.write_char(shown)?,
                None => return Ok(()),
            }
        }
        match rest.next() {
            Some(_) => f.write_str(".."),
            None => Ok(()),
        }
    }
}

/// Why a line can't be read: the word at fault, and what was expected.
///
/// Words are shown as they are in the line, before their escapes are undone.
#[derive(Clone, Copy, Debug)]
pub(crate) enum Reason<'a> {
    /// The line begins with a space.
    SpaceBefore,
    /// The line ends with a space.
    SpaceAfter,
    /// There are two spaces in a row.
    TwoSpaces,
    /// A backslash in this word begins no escape.
    Escape(&'a [u8]),
    /// No line begins with this word.
    Unknown(&'a [u8]),
    /// The line has too few words or too many.
    Count {
        /// How the line should look.
        usage: &'static str,
        /// How many words it has.
        words: usize,
    },
    /// This word is not what it has to be.
    Word {
        /// What it has to be.
        field: Field,
        /// The word.
        word: &'a [u8],
    },
}

impl<'a> fmt::Display for Reason<'a> {
    fn fmt<W: fmt::Write>(&self, f: &mut fmt::Formatter<W>) -> fmt::Result {
        match self {
            Reason::SpaceBefore => f.write_str("the line begins with a space"),
            Reason::SpaceAfter => {
                f.write_str("the line ends with a space; a word of no bytes is written \\e")
            }
            Reason::TwoSpaces => {
                f.write_str("two spaces in a row; a word of no bytes is written \\e")
            }
            Reason::Escape(word) => {
                let word = Excerpt(word);
                write!(
                    f,
                    "a backslash in `{word}` begins no escape; the escapes are \\\\, \\n, \\s and \\e"
                )
            }
            Reason::Unknown(word) => {
                let word = Excerpt(word);
                write!(f, "no line begins with `{word}`")
            }
            Reason::Count { usage, words } => {
                let noun = if *words == 1 { "word" } else { "words" };
                write!(f, "expected `{usage}`, and the line has {words} {noun}")
            }
            Reason::Word { field, word } => {
                let word = Excerpt(word);
                write!(f, "{field}, not `{word}`")
            }
        }
    }
}

/// Returns why a line has no words: how its spaces or its escapes are wrong.
fn spelling_reason<'a>(alloc: Global, line: &'a [u8]) -> Result<Reason<'a>, AllocError> {
    for part in line.split(|b| *b == b' ') {
        if !part.is_empty() && words(alloc, part)?.is_none() {
            return Ok(Reason::Escape(part));
        }
    }
    match line {
        [b' ', ..] => Ok(Reason::SpaceBefore),
        [.., b' '] => Ok(Reason::SpaceAfter),
        _ => Ok(Reason::TwoSpaces),
    }
}

/// Returns why a line that has words, and begins as a row does, can't be read.
fn row_reason<'a>(alloc: Global, line: &'a [u8], row: &Row) -> Result<Reason<'a>, AllocError> {
    let count = line.split(|b| *b == b' ').count();
    let wrong_count = Reason::Count {
        usage: row.usage,
        words: count,
    };
    if !row.admits_count(count.saturating_sub(1)) {
        return Ok(wrong_count);
    }
    for (place, word) in line.split(|b| *b == b' ').skip(1).enumerate() {
        let field = row.field(place);
        if !field.admits(alloc, word)? {
            return Ok(Reason::Word { field, word });
        }
    }
    Ok(wrong_count)
}

/// Returns why a line that can't be read can't.
fn line_reason<'a>(alloc: Global, line: &'a [u8]) -> Result<Reason<'a>, AllocError> {
    let Some(words) = words(alloc, line)? else {
        return spelling_reason(alloc, line);
    };
    let first = words.first().map(|word| word.as_bytes()).unwrap_or(line);
    match ROWS.iter().find(|row| row.name.as_bytes() == first) {
        Some(row) => row_reason(alloc, line, row),
        None => {
            let shown = line.split(|b| *b == b' ').next().unwrap_or(line);
            Ok(Reason::Unknown(shown))
        }
    }
}

/// Returns why a line can't be read, or `None` exactly if it can.
///
/// The line comes without its end. Lines that are empty or comments are skipped in a script, and
/// are not looked at here. How long the line is does not matter.
///
/// # Errors
///
/// Returns `AllocError` if out of memory.
pub(crate) fn reason_of<'a>(alloc: Global, line: &'a [u8]) -> Result<Option<Reason<'a>>, AllocError>
    ensures { IfOk result (λ reason. is_none reason ≡ is_some (option_and_then command_of (words_of line.now))) }
{
    if is_read(alloc, line)? {
        return Ok(None);
    }
    Ok(Some(line_reason(alloc, line)?))
}
