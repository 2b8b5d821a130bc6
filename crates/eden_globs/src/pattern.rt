//! Patterns as a filter keeps them: cut into parts once, each in the simplest form it can
//! have.

ghost use Rattle.std.specs.Prelude.{◌≡◌, ◌<◌, ◌≤◌, ◌∷◌, ◌++◌, ℕ, List, Bool, [], true, false, length, map, IfOk, IfSome, MatchOption};
ghost use Rattle.eden_ids.specs.Paths.{components};
ghost use Rattle.eden_globs.specs.internal.Compiled.{AreParts, AreTokensOf, IsPartOf, StandsFor, is_any_names_part, is_run, left_length, left_of, part_matches, takes, tokens_match};

use std::alloc::{AllocError, Global};

/// What a part requires of a name, from first to last.
#[derive(Clone, Copy)]
pub(crate) enum Token {
    /// Any run of bytes, also an empty one.
    Run,
    /// Any one byte.
    Any,
    /// This byte.
    Byte(u8),
}

impl Token {
    /// Returns true if this token stands for any run of bytes.
    pub(crate) fn is_run(&self) -> bool
        ensures { result ≡ is_run self.now }
    {
        match self {
            Token::Run => true,
            _ => false,
        }
    }

    /// Returns true if this token stands for a byte, or for any run of bytes.
    pub(crate) fn takes(&self, byte: u8) -> bool
        ensures { result ≡ takes self.now byte }
    {
        match self {
            Token::Byte(wanted) => *wanted == byte,
            _ => true,
        }
    }
}

/// A part of a pattern, as it is matched.
#[derive(Drop)]
pub(crate) enum Part {
    /// `**`: any number of names, also zero.
    AnyNames,
    /// The name with these bytes.
    Name(Vec<u8>),
    /// Each name that begins with these bytes.
    Prefix(Vec<u8>),
    /// Each name that ends with these bytes.
    Suffix(Vec<u8>),
    /// Each name that matches the tokens.
    Tokens(Vec<Token>),
}

/// Returns the bytes before and after the first slash.
pub(crate) fn cut(bytes: &[u8]) -> (&[u8], Option<&[u8]>)
    ensures parts { components bytes.now ≡ result.0.now ∷ left_of result.1 }
    ensures shorter { left_length result.1 ≤ length bytes.now }
{
    for at in 0..bytes.len() {
        if bytes[at] == b'/' {
            return (&bytes[..at], Some(&bytes[at + 1..]));
        }
    }
    (bytes, None)
}

/// Returns the token of a byte, if it is one.
///
/// A backslash that escapes the next byte has none. `escaped` says that such a backslash
/// precedes the byte.
#[tactic(auto, using(crate::proofs::Tokens::escaped_stands, crate::proofs::Tokens::run_stands, crate::proofs::Tokens::any_stands, crate::proofs::Tokens::byte_stands))]
fn token_of(escaped: bool, byte: u8) -> Option<Token>
    ensures { MatchOption result ((escaped ≡ false) × (byte ≡ 92)) (λ token. StandsFor token escaped byte) }
{
    if escaped {
        return Some(Token::Byte(byte));
    }
    match byte {
        b'\\' => None,
        b'*' => Some(Token::Run),
        b'?' => Some(Token::Any),
        _ => Some(Token::Byte(byte)),
    }
}

/// Returns the tokens of a part.
fn tokens_of(alloc: Global, text: &[u8]) -> Result<Vec<Token>, AllocError>
    ensures { IfOk result (λ tokens. AreTokensOf tokens.items false text.now) }
{
    let mut tokens = Vec::new(alloc);
    let mut escaped = false;
    for byte in text {
        match token_of(escaped, *byte) {
            Some(token) => {
                tokens.push(token)?;
                escaped = false;
            }
            None => escaped = true,
        }
    }
    Ok(tokens)
}

/// Returns the bytes that the tokens require, if each requires one.
fn bytes_of(alloc: Global, tokens: &[Token]) -> Result<Option<Vec<u8>>, AllocError>
    ensures { IfOk result (λ found. IfSome found (λ bytes. tokens.now ≡ map Token.Byte bytes.items)) }
{
    let mut bytes = Vec::new(alloc);
    for token in tokens {
        let Token::Byte(byte) = token else {
            return Ok(None);
        };
        bytes.push(*byte)?;
    }
    Ok(Some(bytes))
}

/// Returns the bytes after a leading run, if nothing else is required.
fn ending_of(alloc: Global, tokens: &[Token]) -> Result<Option<Vec<u8>>, AllocError>
    ensures { IfOk result (λ found. IfSome found (λ bytes. tokens.now ≡ Token.Run ∷ map Token.Byte bytes.items)) }
{
    match tokens.split_first() {
        Some((Token::Run, rest)) => bytes_of(alloc, rest),
        _ => Ok(None),
    }
}

/// Returns the bytes before a trailing run, if nothing else is required.
fn beginning_of(alloc: Global, tokens: &[Token]) -> Result<Option<Vec<u8>>, AllocError>
    ensures { IfOk result (λ found. IfSome found (λ bytes. tokens.now ≡ map Token.Byte bytes.items ++ Token.Run ∷ [])) }
{
    match tokens.split_last() {
        Some((Token::Run, rest)) => bytes_of(alloc, rest),
        _ => Ok(None),
    }
}

impl Part {
    /// Returns the simplest part that matches the same names as the tokens.
    fn from_tokens(alloc: Global, tokens: Vec<Token>) -> Result<Part, AllocError>
        ensures one { IfOk result (λ part. is_any_names_part part ≡ false) }
        ensures names { IfOk result (λ part. (name : List ℕ) → part_matches part name ≡ tokens_match tokens.items name) }
    {
        if let Some(bytes) = bytes_of(alloc, tokens.as_slice())? {
            return Ok(Part::Name(bytes));
        }
        if let Some(bytes) = ending_of(alloc, tokens.as_slice())? {
            return Ok(Part::Suffix(bytes));
        }
        if let Some(bytes) = beginning_of(alloc, tokens.as_slice())? {
            return Ok(Part::Prefix(bytes));
        }
        Ok(Part::Tokens(tokens))
    }

    /// Returns the part of a pattern with this text.
    fn compile(alloc: Global, text: &[u8]) -> Result<Part, AllocError>
        ensures { IfOk result (λ part. IsPartOf part text.now) }
    {
        if text == b"**".as_slice() {
            return Ok(Part::AnyNames);
        }
        let tokens = tokens_of(alloc, text)?;
        Part::from_tokens(alloc, tokens)
    }

    /// Returns true if this part is `**`.
    pub(crate) fn is_any_names(&self) -> bool
        ensures { result ≡ is_any_names_part self.now }
    {
        match self {
            Part::AnyNames => true,
            _ => false,
        }
    }
}

/// Returns the parts of a pattern, in their order.
pub(crate) fn parts_of(alloc: Global, pattern: &[u8]) -> Result<Vec<Part>, AllocError>
    ensures { IfOk result (λ parts. AreParts parts.items (components pattern.now)) }
{
    let mut parts = Vec::new(alloc);
    let mut left = Some(pattern);
    while let Some(bytes) = left {
        let (text, rest) = cut(bytes);
        parts.push(Part::compile(alloc, text)?)?;
        left = rest;
    }
    Ok(parts)
}
