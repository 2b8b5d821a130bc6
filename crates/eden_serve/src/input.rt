//! The input of a daemon: the lines of its script, up to `listen` and after it.

ghost use Rattle.std.specs.Prelude.{◌≡◌, IfOk};

use eden_edend::LineInput;
use eden_ids::NoMemory;
use eden_stream::Counted;
use std::alloc::Global;
use std::io::Read;

/// The input of a daemon, whose reads are counted.
#[derive(Drop)]
pub struct ScriptInput<I: Read + Drop> {
    pub(crate) lines: Counted<LineInput<I>>,
}

impl<I: Read + Drop> ScriptInput<I> {
    /// Returns the input of a device. `NoMemory` if an allocation fails.
    pub fn new(alloc: Global, device: I) -> Result<ScriptInput<I>, NoMemory>
        ensures { IfOk result (λ input. input.lines.device ≡ I.remaining device) }
    {
        Ok(ScriptInput {
            lines: Counted::new(LineInput::new(alloc, device)?),
        })
    }
}
