//! Numbers as decimal texts.

ghost use Rattle.std.specs.Prelude.{◌≡◌, ◌++◌, OnOk, OnErr, decimal};
ghost use Rattle.eden_ids.specs.Fronts.{KeepsFront};

use itoa::Buffer;
use std::alloc::AllocError;

/// Appends the decimal text of `n`.
///
/// # Errors
///
/// - `AllocError` if an allocation fails; the text does not change.
#[tactic(auto, using(eden_ids::proofs::Fronts::grown_keeps))]
pub fn push_number(text: &mut Vec<u8>, n: u64) -> Result<(), AllocError>
    ensures ok { OnOk result (text.new.items ≡ text.old.items ++ decimal n) }
    ensures err { OnErr result (text.new.items ≡ text.old.items) }
    ensures front { KeepsFront text.old.items text.new.items }
{
    text.extend_from_slice(Buffer::new().format(n).as_bytes())
}
