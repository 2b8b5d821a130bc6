//! A session of a script: the objects, the mount once there is one, and what each line makes of
//! them.

ghost use Rattle.std.specs.Prelude.{◌≡◌, IfOk, IsSome, OnOk, option_and_then};
ghost use Rattle.eden_ids.specs.Fronts.{KeepsFront};
ghost use Rattle.eden_objects.specs.Commits.{commit_map};
ghost use Rattle.eden_objects.specs.Files.{commit_files};
ghost use Rattle.eden_history.specs.Worlds.{opened};
ghost use Rattle.eden_accumulate.specs.Mounts.{StandsFor};
ghost use Rattle.eden_script.specs.Words.{words_of};
ghost use Rattle.eden_script.specs.ScriptLines.{command_of};
ghost use Rattle.eden_script.specs.ScriptText.{script_text};
ghost use Rattle.eden_script.specs.Sessions.{session_over, id_told};
ghost use Rattle.eden_script.specs.Labels.{bound};
ghost use Rattle.eden_edend.specs.internal.Standing.{Acts, Tells, SessionStands};

use crate::changes::change_of;
use crate::labels::Labels;
use crate::objects::{Objects, bind_put, object_of};
use crate::printing::push_told;
use crate::questions::ask;
use eden_accumulate::Mount;
use eden_history::Answer;
use eden_ids::{GitNaming, Id, NoMemory};
use eden_objects::{Importer, Object, Payload, Store};
use eden_script::{AskLine, ChangeLine, Command, Label, MountLine, PutLine, Refusal, Told, words};
use eden_stream::{Answered, LineMachine};
use std::alloc::{AllocError, Global};

/// Reads what a line asks for. Returns `None` if it can't be read.
pub(crate) fn read_line(alloc: Global, line: &[u8]) -> Result<Option<Command>, AllocError>
    ensures { IfOk result (λ command. command ≡ option_and_then command_of (words_of line.now)) }
{
    match words(alloc, line)? {
        Some(words) => Command::read(alloc, words),
        None => Ok(None),
    }
}

/// Returns the id that a label is bound to.
fn id_of(labels: &Labels, label: &Label) -> Told<'static>
    ensures { result ≡ id_told (bound labels.now label.now) }
{
    match labels.get(label) {
        Some(id) => Told::Id(id),
        None => Told::Refused(Refusal::NoLabel),
    }
}

/// Mounts a commit of the store.
fn mount_commit(
    alloc: Global,
    store: Store<GitNaming>,
    root: Id,
    generation: u64,
    limit: u64,
) -> Result<Mount<GitNaming>, NoMemory>
    requires { IsSome (commit_map store root) }
    ensures { IfOk result (λ mount. StandsFor mount (opened store generation limit root (commit_files store root))) }
{
    match Mount::mount(alloc, store, root, generation, limit) {
        Ok(mount) => Ok(mount),
        // The commit is there.
        Err(_) => unreachable!(),
    }
}

/// A script so far.
#[derive(Drop)]
pub(crate) struct Session {
    alloc: Global,
    pub(crate) mount: Option<Mount<GitNaming>>,
    pub(crate) objects: Objects,
}

impl Session {
    /// Makes a session with these objects and no mount.
    ///
    /// Does not allocate.
    pub(crate) fn new(alloc: Global, objects: Objects) -> Session
        ensures { SessionStands result.mount result.objects (script_text (session_over objects.store objects.labels)) }
    {
        Session {
            alloc,
            mount: None,
            objects,
        }
    }

    /// Puts an object, among those of the mount once there is one.
    #[tactic(auto, using(crate::proofs::Acting::put_unbound))]
    fn put(&mut self, line: PutLine) -> Result<Told<'static>, NoMemory>
        ensures { IfOk result (λ told. Acts self.old.mount self.old.objects (Command.Put line) self.new.mount self.new.objects told) }
    {
        let (label, object) = object_of(self.alloc, &self.objects.labels, line)?;
        let Some(
            Object {
                object_type,
                payload,
            },
        ) = object
        else {
            return Ok(Told::Refused(Refusal::NoLabel));
        };
        match &mut self.mount {
            Some(mount) => {
                let put = mount.put_object(object_type, Payload::Shared(&payload));
                bind_put(&mut self.objects.labels, label, put)
            }
            None => {
                let payload = Payload::Shared(&payload);
                let put = self.objects.store.put_object(object_type, payload);
                bind_put(&mut self.objects.labels, label, put)
            }
        }
    }

    /// Mounts a commit. The mount takes the store.
    #[tactic(auto, using(crate::proofs::Acting::mount_late, crate::proofs::Acting::label_unbound, eden_history::proofs::Committed::commit_mapped))]
    fn mount(&mut self, line: MountLine) -> Result<Told<'static>, NoMemory>
        ensures { IfOk result (λ told. Acts self.old.mount self.old.objects (Command.Mount line) self.new.mount self.new.objects told) }
    {
        if self.mount.is_some() {
            return Ok(Told::Refused(Refusal::Mounted));
        }
        let Some(root) = self.objects.labels.get(&line.label) else {
            return Ok(Told::Refused(Refusal::NoLabel));
        };
        if !self.objects.store.has_commit(root) {
            return Ok(Told::Refused(Refusal::NoCommit));
        }
        let store = self.objects.take_store(self.alloc);
        let mount = mount_commit(self.alloc, store, root, line.generation, line.limit)?;
        let position = mount.position();
        self.mount = Some(mount);
        Ok(Told::Answer(Answer::At(position)))
    }

    /// Changes the mount.
    #[tactic(auto, using(crate::proofs::Acting::change_early))]
    fn change(&mut self, line: ChangeLine) -> Result<Told<'static>, NoMemory>
        ensures { IfOk result (λ told. Acts self.old.mount self.old.objects (Command.Change line) self.new.mount self.new.objects told) }
    {
        let Some(mount) = &mut self.mount else {
            return Ok(Told::Refused(Refusal::NotMounted));
        };
        match change_of(&self.objects.labels, line)? {
            Ok(change) => {
                let answer = mount.apply(&change)?;
                Ok(Told::Answer(answer))
            }
            Err(cause) => Ok(Told::Refused(cause)),
        }
    }

    /// Asks the mount.
    #[tactic(auto, using(crate::proofs::Acting::ask_early, crate::proofs::Acting::ask_acts))]
    fn ask(&self, line: AskLine) -> Result<Told<'_>, NoMemory>
        ensures { IfOk result (λ told. Acts self.now.mount self.now.objects (Command.Ask line) self.now.mount self.now.objects told) }
    {
        match &self.mount {
            Some(mount) => ask(mount, line),
            None => Ok(Told::Refused(Refusal::NotMounted)),
        }
    }

    /// Does what a line asks for, and adds what it prints to the text.
    ///
    /// If an allocation fails, part of it may have been added.
    fn execute(&mut self, command: Command, text: &mut Vec<u8>) -> Result<(), NoMemory>
        ensures told { OnOk result (Tells self.old.mount self.old.objects command self.new.mount self.new.objects text.old.items text.new.items) }
        ensures front { KeepsFront text.old.items text.new.items }
    {
        match command {
            Command::Put(line) => {
                let told = self.put(line)?;
                Ok(push_told(text, &self.objects.labels, &told)?)
            }
            Command::Id { label } => {
                let told = id_of(&self.objects.labels, &label);
                Ok(push_told(text, &self.objects.labels, &told)?)
            }
            Command::Mount(line) => {
                let told = self.mount(line)?;
                Ok(push_told(text, &self.objects.labels, &told)?)
            }
            Command::Change(line) => {
                let told = self.change(line)?;
                Ok(push_told(text, &self.objects.labels, &told)?)
            }
            Command::Ask(line) => {
                let told = self.ask(line)?;
                Ok(push_told(text, &self.objects.labels, &told)?)
            }
        }
    }
}

impl LineMachine for Session {
    ghost use Rattle.eden_edend.specs.internal.Standing.{SessionStands};
    ghost use Rattle.eden_edend.specs.internal.SessionScript.{session_script};

    ghost stands_for = { λ session script. SessionStands session.mount session.objects script };

    ghost refused = { λ session script _. SessionStands session.mount session.objects script };

    fn answer(&mut self, line: &[u8], text: &mut Vec<u8>) -> Answered {
        let command = match read_line(self.alloc, line) {
            Ok(Some(command)) => command,
            Ok(None) => return Answered::BadLine,
            Err(_) => return Answered::NoMemory,
        };
        match self.execute(command, text) {
            Ok(()) => Answered::Done,
            Err(_) => Answered::NoMemory,
        }
    }

    ghost lawful = { λ session script stands. session_script session.mount session.objects script stands };
}
