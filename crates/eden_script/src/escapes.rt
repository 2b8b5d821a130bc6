//! Bytes as the words of a line: escaping, and its reverse.

ghost use Rattle.std.specs.Prelude.{◌≡◌, ◌++◌, length, take, MatchOption, OnOk, OnErr, IfOk};
ghost use Rattle.std.specs.List.{flat_map};
ghost use Rattle.std.specs.Option.{option_map, option_copied};
ghost use Rattle.eden_script.specs.Escapes.{meaning_of, unescaped, escaped_byte, escaped};
ghost use Rattle.eden_ids.specs.Fronts.{KeepsFront};
ghost use Rattle.eden_script.specs.internal.Runs.{IsPlain, EndsPlain, HasNoBackslash, HasBackslashAt};

use bstr::ByteSlice;
use std::alloc::{AllocError, Global};

/// Appends the bytes as they are.
///
/// # Errors
///
/// - `AllocError` if an allocation fails; the text does not change.
#[tactic(auto, using(eden_ids::proofs::Fronts::grown_keeps))]
pub fn push_bytes(text: &mut Vec<u8>, bytes: &[u8]) -> Result<(), AllocError>
    ensures ok { OnOk result (text.new.items ≡ text.old.items ++ bytes.now) }
    ensures err { OnErr result (text.new.items ≡ text.old.items) }
    ensures front { KeepsFront text.old.items text.new.items }
{
    text.extend_from_slice(bytes)
}

/// Appends the bytes escaped, as one word.
///
/// A backslash is written as `\\`, a line feed as `\n`, a space as `\s`, any other byte
/// as it is, and an empty string as `\e`.
///
/// # Errors
///
/// - `AllocError` if an allocation fails; the text does not change.
#[tactic(auto, unfolding(crate::specs::Escapes::escaped), using(eden_ids::proofs::Fronts::grown_keeps))]
pub fn push_escaped(text: &mut Vec<u8>, bytes: &[u8]) -> Result<(), AllocError>
    ensures ok { OnOk result (text.new.items ≡ text.old.items ++ escaped bytes.now) }
    ensures err { OnErr result (text.new.items ≡ text.old.items) }
    ensures front { KeepsFront text.old.items text.new.items }
{
    if bytes.is_empty() {
        return text.extend_from_slice(br"\e");
    }
    let start = text.len();
    let pushed = push_each_escaped(text, bytes);
    if pushed.is_err() {
        text.truncate(start);
    }
    pushed
}

/// Returns the index of the first byte that needs an escape.
#[tactic(auto, unfolding(bstr::specs::Bytes::is_in))]
fn first_escaped(bytes: &[u8]) -> Option<usize>
    ensures { MatchOption result (IsPlain bytes.now) (EndsPlain bytes.now) }
{
    bytes.find_byteset(b"\\\n ".as_slice())
}

// Appends each byte escaped; runs of bytes that need no escape go in together.
//
/// If an allocation fails, some of the bytes may have been appended.
fn push_each_escaped(text: &mut Vec<u8>, bytes: &[u8]) -> Result<(), AllocError>
    ensures ok { OnOk result (text.new.items ≡ text.old.items ++ flat_map escaped_byte bytes.now) }
    ensures err { OnErr result (take (length text.old.items) text.new.items ≡ text.old.items) }
{
    let mut start = 0;
    while let Some(size) = first_escaped(&bytes[start..]) {
        let place = start + size;
        push_bytes(text, &bytes[start..place])?;
        push_escaped_byte(text, bytes[place])?;
        start = place + 1;
    }
    push_bytes(text, &bytes[start..])
}

/// Adds a byte, escaped if it must be.
fn push_escaped_byte(text: &mut Vec<u8>, byte: u8) -> Result<(), AllocError>
    ensures ok { OnOk result (text.new.items ≡ text.old.items ++ escaped_byte byte) }
    ensures err { OnErr result (text.new.items ≡ text.old.items) }
{
    match byte {
        b'\\' => text.extend_from_slice(br"\\"),
        b'\n' => text.extend_from_slice(br"\n"),
        b' ' => text.extend_from_slice(br"\s"),
        _ => {
            text.push(byte)?;
            Ok(())
        }
    }
}

/// Returns the meaning of a backslash followed by `code`.
fn meaning(code: u8) -> Option<&'static [u8]>
    ensures { option_copied result ≡ meaning_of code }
{
    match code {
        b'\\' => Some(b"\\"),
        b'n' => Some(b"\n"),
        b's' => Some(b" "),
        b'e' => Some(b""),
        _ => None,
    }
}

/// Returns the index of the first backslash.
fn first_backslash(bytes: &[u8]) -> Option<usize>
    ensures { MatchOption result (HasNoBackslash bytes.now) (HasBackslashAt bytes.now) }
{
    bytes.find_byte(b'\\')
}

// Returns the bytes that `text` spells, or `None` if one of its backslashes is invalid.
//
/// The bytes up to a backslash are copied together.
pub(crate) fn unescape(alloc: Global, text: &[u8]) -> Result<Option<Vec<u8>>, AllocError>
    ensures { IfOk result (λ bytes. option_map (λ v. v.items) bytes ≡ unescaped text.now) }
{
    let mut bytes = Vec::new(alloc);
    let mut rest = text;
    while let Some(place) = first_backslash(rest) {
        let (plain, escape) = rest.split_at(place);
        bytes.extend_from_slice(plain)?;
        let [_, code, tail @ ..] = escape else {
            return Ok(None);
        };
        let Some(meant) = meaning(*code) else {
            return Ok(None);
        };
        bytes.extend_from_slice(meant)?;
        rest = tail;
    }
    bytes.extend_from_slice(rest)?;
    Ok(Some(bytes))
}
