//! What is found in the end, and how it is printed.

ghost use Rattle.std.specs.Io.KnownBytes.{Appends, Keeps};
ghost use Rattle.std.specs.Prelude.{◌≡◌, true, false, Ok, Err, IfOk, OnOk, IsErrOf, codes};
ghost use Rattle.std.specs.String.{string_bytes};
ghost use Rattle.eden_demo.specs.Verdicts.{Prints, PrintsFront, audit_name, verdict_text};
ghost use Rattle.eden_logs.specs.declared.fault.AuditFault.{AuditFault};

use crate::fault::DemoFault;
use eden_ids::NoMemory;
use eden_shared::AuditFault;
use eden_stream::print;
use std::alloc::Global;
use std::io::Write;

/// Returns what an audit found, as it is printed.
fn audit_name(audit: Result<(), AuditFault>) -> &'static str
    ensures { result.now ≡ audit_name audit }
{
    match audit {
        Ok(()) => "ok",
        Err(AuditFault::UnknownCall) => "UnknownCall",
        Err(AuditFault::WrongReply) => "WrongReply",
        Err(AuditFault::OutOfOrder) => "OutOfOrder",
        Err(AuditFault::Twice) => "Twice",
        Err(AuditFault::CountsDiffer) => "CountsDiffer",
        Err(AuditFault::NoMemory) => "NoMemory",
    }
}

/// What the audit says, and whether the followers have followed.
#[derive(Clone, Copy)]
pub(crate) struct Verdict {
    pub(crate) audit: Result<(), AuditFault>,
    pub(crate) agree: bool,
}

impl Verdict {
    /// Returns the lines that say it.
    fn text(self, alloc: Global) -> Result<String, NoMemory>
        ensures { IfOk result (λ text. string_bytes text ≡ verdict_text (audit_name self.audit) self.agree) }
    {
        let audit = audit_name(self.audit);
        let followers = if self.agree { "agree" } else { "differ" };
        Ok(format!(in alloc; "audit {audit}\nfollowers {followers}\n")?)
    }

    /// Writes the lines, and returns what is wrong.
    #[tactic(auto, using(crate::proofs::Telling::prints, crate::proofs::Telling::prints_agree, crate::proofs::Telling::prints_differ, crate::proofs::Telling::prints_front))]
    pub(crate) fn report<W: Write>(self, alloc: Global, writer: &mut W) -> Result<(), DemoFault>
        ensures found { OnOk result ((self.audit ≡ Ok tt) × (self.agree ≡ true)) }
        ensures refused { (fault : AuditFault) → IsErrOf result (DemoFault.Refused fault) → self.audit ≡ Err fault }
        ensures differs { IsErrOf result DemoFault.Differ → (self.audit ≡ Ok tt) × (self.agree ≡ false) }
        ensures agree { OnOk result (Appends (W.contents writer.old) (W.contents writer.new) (codes "audit ok\nfollowers agree\n")) }
        ensures differ { IsErrOf result DemoFault.Differ
            → Appends (W.contents writer.old) (W.contents writer.new) (codes "audit ok\nfollowers differ\n") }
        ensures named { (fault : AuditFault) → IsErrOf result (DemoFault.Refused fault) → Prints (W.contents writer.old) (W.contents writer.new) }
        ensures torn { IsErrOf result DemoFault.Write → PrintsFront (W.contents writer.old) (W.contents writer.new) }
        ensures unwritten { IsErrOf result DemoFault.NoMemory → Keeps (W.contents writer.old) (W.contents writer.new) }
        ensures served { ¬ IsErrOf result DemoFault.NoConnection }
    {
        let Ok(text) = self.text(alloc) else {
            return Err(DemoFault::NoMemory);
        };
        if !print(writer, text.as_bytes()) {
            return Err(DemoFault::Write);
        }
        match self.audit {
            Ok(()) if self.agree => Ok(()),
            Ok(()) => Err(DemoFault::Differ),
            Err(fault) => Err(DemoFault::Refused(fault)),
        }
    }
}
