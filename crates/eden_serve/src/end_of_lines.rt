//! How a daemon ends once its lines have.

ghost use Rattle.std.specs.Prelude.{ℕ, List, Option, Ok};
ghost use Rattle.std.specs.Io.KnownBytes.{Appends};
ghost use Rattle.eden_script.specs.declared.label.Binding.{Binding};
ghost use Rattle.eden_serve.specs.Endings.{Ran, ServingEnds, last_text};

use crate::fault::DaemonFault;
use crate::program::Until;
use eden_stream::RunFault;

/// Returns how a daemon ends whose lines have ended so, once its last text is written.
#[tactic(auto, using(crate::proofs::Ending::all_ended, crate::proofs::Ending::lines_ended))]
pub(crate) fn end_lines(ran: Result<u64, RunFault>) -> Result<(), DaemonFault>
    ensures { (labels : List Binding) → (from : ℕ) (until : Until) (input w0 w1 : Option (List ℕ)) → Ran labels from input ran → Appends w0 w1 (last_text until (Ok tt)) → ServingEnds labels from until input w0 w1 result }
{
    match ran {
        Ok(_) => Ok(()),
        Err(fault) => Err(DaemonFault::Script(fault)),
    }
}
