//! What is asked with patience: a question, and for how long its reply may wait.

ghost use Rattle.std.specs.Prelude.{◌≡◌, ◌<◌, ◌≤◌, ◌^◌, ℕ, List, length, ◌++◌, IfOk, OnOk, Ok};
ghost use Rattle.eden_ids.specs.Fronts.{KeepsFront};
ghost use Rattle.eden_stream.specs.Frames.{frame};
ghost use Rattle.eden_wire.specs.Asked.{SpellsAsked, asked_bytes, patience_bytes, read_asked};
ghost use Rattle.eden_wire.specs.Reading.{Gives};

use crate::decoding::tag_of;
use crate::encoding::put_bytes;
use crate::fault::DecodeFault;
use crate::fields::u32_of;
use crate::question::{Question, len_of_question, put_question, question_of, question_text_law};
use std::alloc::{AllocError, Global};

/// A question, and for how long its reply may wait until it names something.
#[derive(Debug, PartialEq, Eq, Drop)]
pub struct Asked {
    /// For how many milliseconds. A question alone has 0.
    pub patience: u32,
    /// The question.
    pub question: Question,
}

/// Reads the whole body of what is asked.
#[tactic(auto, unfolding(crate::specs::Asked::read_asked))]
pub(crate) fn asked_of(alloc: Global, body: &[u8]) -> Result<Asked, DecodeFault>
    ensures { Gives (λ asked. asked) result (read_asked body.now) }
{
    let (tag, rest) = tag_of(body)?;
    if tag == 0x05 {
        let (patience, rest) = u32_of(rest)?;
        let question = question_of(alloc, rest)?;
        return Ok(Asked { patience, question });
    }
    let question = question_of(alloc, body)?;
    Ok(Asked {
        patience: 0,
        question,
    })
}

/// Reads a body that asks something: a question, alone or after a patience.
///
/// A patience is the version, the tag 5 and four bytes of milliseconds. The whole body of a
/// question comes after it, and no second patience.
///
/// # Errors
///
/// As of `decode_question`, in the same order. Those of a question after a patience come after
/// those of the patience.
pub fn decode_asked(alloc: Global, body: &[u8]) -> Result<Asked, DecodeFault>
    ensures spelled { IfOk result (λ asked. SpellsAsked body.now asked) }
    ensures all { (asked : Asked) → SpellsAsked body.now asked → Gives (λ a. a) result (Ok asked) }
    // The fault is this one.
    ensures exact { Gives (λ asked. asked) result (read_asked body.now) }
{
    asked_of(alloc, body)
}

/// Writes what comes before a question that has patience.
fn put_patience(out: &mut Vec<u8>, patience: u32) -> Result<(), AllocError>
    ensures told { OnOk result (out.new.items ≡ out.old.items ++ patience_bytes patience) }
    ensures front { KeepsFront out.old.items out.new.items }
{
    put_bytes(out, &[0x02, 0x05])?;
    put_bytes(out, &patience.to_be_bytes())
}

/// Writes the body of what is asked.
fn put_asked(out: &mut Vec<u8>, asked: &Asked) -> Result<(), AllocError>
    ensures told { OnOk result (out.new.items ≡ out.old.items ++ asked_bytes asked.now) }
    ensures front { KeepsFront out.old.items out.new.items }
{
    if asked.patience > 0 {
        put_patience(out, asked.patience)?;
    }
    put_question(out, &asked.question)
}

/// Returns the length of the body of what is asked.
fn len_of_asked(asked: &Asked) -> u32
    ensures len { result ≡ length (asked_bytes asked.now) }
    ensures few { result ≤ 17575 }
    ensures patience { asked.now.patience < 2 ^ 32 }
{
    let front = if asked.patience > 0 { 6 } else { 0 };
    front + len_of_question(&asked.question)
}

/// Writes the frame of what is asked after a text: four bytes of length, and its body.
///
/// A question with a patience of 0 is written alone. So any service that knows it can answer it.
///
/// # Errors
///
/// - `AllocError` if an allocation fails. The text may then end with a part of the frame; what was
///   there before is unchanged.
pub fn append_asked(text: &mut Vec<u8>, asked: &Asked) -> Result<(), AllocError>
    ensures read_back { OnOk result ((body : List ℕ) × SpellsAsked body asked.now × (text.new.items ≡ text.old.items ++ frame body)) }
    ensures exact { OnOk result (text.new.items ≡ text.old.items ++ frame (asked_bytes asked.now)) }
    ensures front { KeepsFront text.old.items text.new.items }
{
    question_text_law(&asked.question);
    let len = len_of_asked(asked);
    put_bytes(text, &len.to_be_bytes())?;
    put_asked(text, asked)
}
