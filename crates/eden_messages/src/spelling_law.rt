//! Laws of the encoding of messages, each as the contract of a function that does
//! nothing.

ghost use Rattle.std.specs.Prelude.{◌≡◌, ℕ, List};
ghost use Rattle.eden_messages.specs.declared.message.Request.{Request};
ghost use Rattle.eden_messages.specs.declared.message.Reply.{Reply};
ghost use Rattle.eden_messages.specs.Replies.{RepliesAreSpelled};
ghost use Rattle.eden_messages.specs.Spells.{SpellsRequest, SpellsReply};

/// States that a message has at most one encoding.
pub fn one_spelling_law()
    ensures requests { (a b : List ℕ) (request : Request) → SpellsRequest a request → SpellsRequest b request → a ≡ b }
    ensures replies { (a b : List ℕ) (reply : Reply) → SpellsReply a reply → SpellsReply b reply → a ≡ b }
{}

/// States that each reply of a world has an encoding.
///
/// Its paths, files, ids and numbers must be ones that values can be (`IsSpellable`).
pub fn reply_spelling_law()
    ensures { RepliesAreSpelled }
{}
