//! The lines of a script up to `listen`.

ghost use Rattle.std.specs.Prelude.{◌≡◌, ◌+◌, ◌≤◌, ◌↔◌, true, codes, Some, IfOk, IfErr, IsErrOf, IsTrue, OnOk};
ghost use Rattle.eden_stream.specs.Counts.{Rose, RoseBy};
ghost use Rattle.eden_script.specs.ScriptText.{script_text};
ghost use Rattle.eden_script.specs.Sessions.{session_over};
ghost use Rattle.eden_edend.specs.Openings.{EndsOpening};

use crate::input::LISTEN;
use crate::labels::Labels;
use crate::objects::Objects;
use crate::session::Session;
use eden_accumulate::Mount;
use eden_ids::GitNaming;
use eden_stream::{Answered, CountedRead, CountedWrite, LineMachine, RunFault, run_lines};
use std::alloc::Global;

/// What a script has opened at the line `listen`.
#[derive(Drop)]
pub struct Opened {
    /// The number of the line `listen`, from 1.
    pub line: u64,
    /// The mount.
    pub mount: Mount<GitNaming>,
    /// What the script's labels are bound to.
    pub labels: Labels,
}

/// Returns whether a line is `listen`.
fn is_listen(line: &[u8]) -> bool
    ensures { IsTrue result ↔ (line.now ≡ codes "listen") }
{
    line == LISTEN
}

/// A session, and whether it has refused the line `listen`.
#[derive(Drop)]
struct Opening {
    session: Session,
    listens: bool,
}

impl LineMachine for Opening {
    ghost use Rattle.std.specs.Prelude.{◌≡◌, true, false, codes};
    ghost use Rattle.eden_edend.specs.internal.Standing.{SessionStands};
    ghost use Rattle.eden_edend.specs.internal.SessionScript.{session_script};

    ghost stands_for = { λ opening script. SessionStands opening.session.mount opening.session.objects script × (opening.listens ≡ false) };

    ghost refused = { λ opening script line. SessionStands opening.session.mount opening.session.objects script × (opening.listens ≡ true → line ≡ codes "listen") };

    fn answer(&mut self, line: &[u8], text: &mut Vec<u8>) -> Answered {
        match self.session.answer(line, text) {
            Answered::Done => Answered::Done,
            Answered::BadLine => {
                self.listens = is_listen(line);
                Answered::BadLine
            }
            Answered::NoMemory => Answered::NoMemory,
        }
    }

    ghost lawful = { λ opening script stands. session_script opening.session.mount opening.session.objects script stands.0 };
}

impl Opening {
    /// Returns what is opened at the line of this number, which the session has refused.
    fn open(self, line: u64) -> Result<Opened, RunFault>
        ensures listens { OnOk result (self.listens ≡ true) }
        ensures line { IfOk result (λ opened. opened.line ≡ line) }
        ensures mount { IfOk result (λ opened. self.session.mount ≡ Some opened.mount) }
        ensures labels { IfOk result (λ opened. opened.labels ≡ self.session.objects.labels) }
        ensures refused { IfErr result (λ fault. fault ≡ RunFault.BadLine line) }
    {
        let Opening { session, listens } = self;
        let Session { mount, objects, .. } = session;
        let Objects { labels, .. } = objects;
        match mount {
            Some(mount) if listens => Ok(Opened {
                line,
                mount,
                labels,
            }),
            _ => Err(RunFault::BadLine(line)),
        }
    }
}

/// Runs the lines of a script as `run_over` does, up to `listen`.
///
/// Returns the number of that line, the mount and the labels. What the lines before it print is
/// written. As much is read as the reader gives. One that gives no byte after that line, as a
/// `LineInput`, is left at the line's end.
///
/// # Errors
///
/// - `BadLine`: no row of the table reads the line of this number, or it is `listen` and no mount
///   was made before it. If the script ends before `listen`, the number is that of the line after
///   its last. What the lines before it print is written.
/// - `Read`, `Write`, `TurnsSpent` and `NoMemory` as those of `run`.
pub fn run_to_listen<R: CountedRead, W: CountedWrite>(
    alloc: Global,
    objects: Objects,
    reader: &mut R,
    writer: &mut W,
) -> Result<Opened, RunFault>
    ensures ends { EndsOpening (script_text (session_over objects.store objects.labels)) (R.remaining reader.old) (R.remaining reader.new) (W.contents writer.old) (W.contents writer.new) result }
    ensures read { IsErrOf result RunFault.Read → Rose (R.failed reader.old) (R.failed reader.new) }
    ensures write { IsErrOf result RunFault.Write → Rose (W.failed writer.old) (W.failed writer.new) }
    ensures turns_spent { IsErrOf result RunFault.TurnsSpent → RoseBy 1000000 (R.called reader.old) (R.called reader.new) }
    ensures turns { R.called reader.new ≤ R.called reader.old + 1000000 }
{
    let mut opening = Opening {
        session: Session::new(alloc, objects),
        listens: false,
    };
    match run_lines(alloc, reader, writer, &mut opening) {
        Ok(count) => Err(RunFault::BadLine(count.saturating_add(1))),
        Err(RunFault::BadLine(line)) => opening.open(line),
        Err(fault) => Err(fault),
    }
}
