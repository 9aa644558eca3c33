//! A port that writes what its steps stand for.
ghost use Rattle.std.specs.Prelude.{◌≡◌};

use crate::moments::{begin, by, end, event_of};
use gic_msi::{CoreStep, Key, Port};
use port_seq::{GuestShape, ItsTables, Local, VcpuWord};
use std::alloc::{AllocError, Global};

/// What an access of the CPU interface answers, until its call has ended.
const TO_COME: &str = "null]}";

/// Events of actors, oldest first, each as JSON.
#[derive(Drop)]
pub(crate) struct Notes {
    alloc: Global,
    pub(crate) events: Vec<String>,
    /// Memory was refused for one.
    pub(crate) is_short: bool,
}

impl Notes {
    pub(crate) fn new(alloc: Global) -> Notes {
        Notes {
            alloc,
            events: Vec::new(alloc),
            is_short: false,
        }
    }

    /// Notes an event, if there is one.
    fn note(&mut self, event: Result<Option<String>, AllocError>) {
        let is_noted = match event {
            Ok(Some(event)) => self.events.push(event).is_ok(),
            Ok(None) => true,
            Err(_) => false,
        };
        if !is_noted {
            self.is_short = true;
        }
    }

    /// Notes what an actor of a guest does.
    fn note_by(&mut self, shape: &GuestShape, actor: u32, event: Result<String, AllocError>) {
        let event = match event {
            Ok(event) => by(self.alloc, shape, actor, event.as_str()).map(Some),
            Err(refused) => Err(refused),
        };
        self.note(event);
    }

    /// A call of an actor begins, of this form.
    pub(crate) fn begins(
        &mut self,
        shape: &GuestShape,
        actor: u32,
        form: Result<String, AllocError>,
    ) {
        let event = match form {
            Ok(form) => begin(self.alloc, form.as_str()),
            Err(refused) => Err(refused),
        };
        self.note_by(shape, actor, event);
    }

    /// The last access of the CPU interface answered this.
    fn fill(&mut self, answer: u64) {
        for index in (0..self.events.len()).rev() {
            if let Some(begins) = self.events[index].strip_suffix(TO_COME) {
                match format!(in self.alloc; "{begins}{answer}]}}") {
                    Ok(event) => self.events[index] = event,
                    Err(_) => self.is_short = true,
                }
                return;
            }
        }
    }

    /// A call of an actor ends with this.
    pub(crate) fn ends(&mut self, shape: &GuestShape, actor: u32, answer: Option<u64>) {
        if let Some(answer) = answer {
            self.fill(answer);
        }
        let event = end(self.alloc, answer);
        self.note_by(shape, actor, event);
    }

    /// Takes over what others have, after its own.
    pub(crate) fn append(&mut self, others: &mut Notes) {
        if others.is_short || self.events.append(&mut others.events).is_err() {
            self.is_short = true;
        }
    }
}

/// A port over another, which notes each step that does what it is for.
#[derive(Drop)]
pub(crate) struct Noting<P> {
    pub(crate) port: P,
    pub(crate) notes: Notes,
}

/// Whether a step did what it is for, by the word that it found: one that stores if a word is still as it was seen, if it is.
fn is_done(step: &CoreStep, found: u64) -> bool {
    match *step {
        CoreStep::Claim { seen, .. }
        | CoreStep::Touch { seen, .. }
        | CoreStep::RamPut { seen, .. }
        | CoreStep::CtlrTake { seen, .. }
        | CoreStep::TurnTake { seen } => found == seen,
        CoreStep::Poll { .. } => !VcpuWord::of(found).kick,
        _ => true,
    }
}

/// Whether an interrupt is at the actor's interface.
fn is_there(local: &Local, key: Key) -> bool {
    local.at.as_slice().iter().any(|one| one.key == key)
}

/// Whether a claim is of an interrupt that is there.
fn claims_more(local: &Local, step: &CoreStep) -> bool {
    match *step {
        CoreStep::Claim { key, .. } => is_there(local, key),
        _ => false,
    }
}

/// What a step that was made stands for, of this actor.
fn noted(
    alloc: Global,
    shape: &GuestShape,
    actor: u32,
    step: &CoreStep,
    found: u64,
    is_more: bool,
) -> Result<Option<String>, AllocError> {
    if !is_done(step, found) {
        return Ok(None);
    }
    match event_of(alloc, shape, step, found, is_more)? {
        Some(event) => Ok(Some(by(alloc, shape, actor, event.as_str())?)),
        None => Ok(None),
    }
}

impl<P: Port> Noting<P> {
    /// A port that notes nothing yet.
    pub(crate) fn of(alloc: Global, port: P) -> Noting<P>
        ensures { result.port ≡ port }
    {
        Noting {
            port,
            notes: Notes::new(alloc),
        }
    }
}

impl<P: Port> Port for Noting<P> {
    ghost seen = { λ noting. P.seen noting.port };

    ghost is_port = { λ noting. P.is_port noting.port };

    fn actor(&self) -> u32 {
        self.port.actor()
    }

    fn shape(&self) -> GuestShape {
        self.port.shape()
    }

    fn local(&self) -> Local {
        self.port.local()
    }

    fn local_ref(&self) -> &Local {
        self.port.local_ref()
    }

    fn step(&mut self, step: CoreStep) -> u64 {
        let is_more = claims_more(self.port.local_ref(), &step);
        let found = self.port.step(step);
        let shape = self.port.shape();
        let actor = self.port.actor();
        let event = noted(self.notes.alloc, &shape, actor, &step, found, is_more);
        self.notes.note(event);
        found
    }

    fn take_tables(&mut self) -> ItsTables {
        self.port.take_tables()
    }

    fn put_tables(&mut self, tables: ItsTables) {
        self.port.put_tables(tables);
    }
}
