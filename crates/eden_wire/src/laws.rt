//! Laws of encoding and decoding, each as the contract of a function that does nothing.

ghost use Rattle.std.specs.Prelude.{◌≡◌, ℕ, List};
ghost use Rattle.eden_messages.specs.declared.message.Request.{Request};
ghost use Rattle.eden_messages.specs.declared.message.Reply.{Reply};
ghost use Rattle.eden_messages.specs.Spells.{SpellsRequest, SpellsReply};
ghost use Rattle.eden_wire.specs.Asked.{AskedAreReadBack, ReadAskedAreSpelled};
ghost use Rattle.eden_wire.specs.Attributes.{attributes_are};
ghost use Rattle.eden_wire.specs.Commands.{AnswersListInOrder, CommandsAreReadBack, DoneAreReadBack, ReadCommandsAreSpelled, ReadDoneAreSpelled};
ghost use Rattle.eden_wire.specs.Laws.{RequestsAreReadBack, ReadRequestsAreSpelled, RepliesAreReadBack, ReadRepliesAreSpelled};
ghost use Rattle.eden_wire.specs.Questions.{QuestionsAreReadBack, ReadQuestionsAreSpelled};
ghost use Rattle.eden_wire.specs.Reading.{AreReadBack, ReadAreSpelled};
ghost use Rattle.eden_wire.specs.Stats.{stat_is};
ghost use Rattle.eden_wire.specs.Statuses.{status_is};

/// States that the body of a request is decoded to it.
///
/// Conversely, a body that was decoded to a request encodes it.
pub fn request_law()
    ensures decoded { RequestsAreReadBack }
    ensures encoded { ReadRequestsAreSpelled }
{}

/// States that the body of a reply is decoded to it.
///
/// Conversely, a body that was decoded to a reply encodes it. A reply with paths out of
/// order, or not below the directory of their list, has no valid encoding: it can be
/// encoded, but not decoded again.
pub fn reply_law()
    ensures decoded { RepliesAreReadBack }
    ensures encoded { ReadRepliesAreSpelled }
{}

/// States that the body of a question is decoded to it.
///
/// Conversely, a body that was decoded to a question encodes it.
pub fn question_law()
    ensures decoded { QuestionsAreReadBack }
    ensures encoded { ReadQuestionsAreSpelled }
{}

/// States that the body of a reply to a Stat is decoded to it.
///
/// Conversely, a body that was decoded to such a reply encodes it.
pub fn stat_law()
    ensures decoded { AreReadBack 136 stat_is }
    ensures encoded { ReadAreSpelled 136 stat_is }
{}

/// States that the body of a reply to attributes is decoded to it.
///
/// Conversely, a body that was decoded to such a reply encodes it. As for a reply to a request, one
/// with files out of order, or not below its prefix, has no valid encoding.
pub fn attributes_law()
    ensures decoded { AreReadBack 137 attributes_are }
    ensures encoded { ReadAreSpelled 137 attributes_are }
{}

/// States that the body of a reply to a status is decoded to it.
///
/// Conversely, a body that was decoded to such a reply encodes it. One with paths out of order has
/// no valid encoding.
pub fn status_law()
    ensures decoded { AreReadBack 138 status_is }
    ensures encoded { ReadAreSpelled 138 status_is }
{}

/// States that the body of what is asked is decoded to it.
///
/// Conversely, a body that was decoded to what is asked encodes it.
pub fn asked_law()
    ensures decoded { AskedAreReadBack }
    ensures encoded { ReadAskedAreSpelled }
{}

/// States that the body of what is asked for is decoded to it.
///
/// It is a request, alone or after a patience, or a change. Conversely, a body that was decoded to
/// what is asked for encodes it.
pub fn command_law()
    ensures decoded { CommandsAreReadBack }
    ensures encoded { ReadCommandsAreSpelled }
{}

/// States that the body of an answer to a change is decoded to it.
///
/// Conversely, a body that was decoded to an answer encodes it.
pub fn done_law()
    ensures decoded { DoneAreReadBack }
    ensures encoded { ReadDoneAreSpelled }
{}

/// States that what a world answers to a change lists its conflicts in order.
///
/// So its body is decoded to it (`append_done`).
pub fn answer_law()
    ensures { AnswersListInOrder }
{}

/// States that a body encodes at most one message.
pub fn one_message_law()
    ensures requests { (body : List ℕ) (x y : Request) → SpellsRequest body x → SpellsRequest body y → x ≡ y }
    ensures replies { (body : List ℕ) (x y : Reply) → SpellsReply body x → SpellsReply body y → x ≡ y }
    ensures either { (body : List ℕ) (x : Request) (y : Reply) → SpellsRequest body x → SpellsReply body y → ⊥ }
{}
