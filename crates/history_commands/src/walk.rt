//! How far a call has come with its commands.
ghost use Rattle.std.specs.Prelude.{◌≡◌, ◌≢◌, ◌↔◌, ◌<◌, ◌≤◌, ◌+◌, ◌++◌, ◌^◌, ◌∷◌, ℕ, [], Option, IsTrue, IfOk, OnOk};
ghost use Rattle.history_commands.specs.Words.{IsShape};
ghost use Rattle.history_commands.specs.Calls.{command_words as command_words_of, command_parts as command_parts_of, words_read as words_read_of};
ghost use Rattle.history_commands.specs.Known.{view_by, its_after, maps_left};
ghost use Rattle.history_commands.specs.Mapped.{mapped_by, targets_by};
ghost use Rattle.history_commands.specs.Stage.{Between, IsGivenBack, IsPartMade, IsQueueMade, FitsNamed, noting, named_after};
ghost use Rattle.history_commands.specs.Followed.{stage_from, stage_of, begun, CanBegin};

use crate::fetch::{command_words, copied, is_fetched, words_read};
use crate::its::Its;
use crate::known::{next_offset, takes_command};
use crate::mapped::{good_command, tables_after};
use crate::parts::parts_of;
use crate::touch::is_part_made;
use history_calls::{
    CallPart as Part, Event, Found, GuestShape, ItsTables, ListOf, Made, QueueChange,
};
use std::alloc::{AllocError, Global};

/// Where a call is.
#[derive(Clone, Copy, Debug, PartialEq, Eq, Hash)]
pub(crate) enum Step {
    /// Before its next command.
    BetweenCommands,
    /// Within one.
    InCommand,
    /// After the last one, where the ITS is given back next.
    AtEnd,
    /// After that.
    AfterEnd,
}

/// What is known of a call that goes through its commands.
#[derive(Drop)]
pub(crate) struct Walk {
    pub step: Step,
    /// The number of the command that it is before or within, from 0.
    pub number: usize,
    /// The ITS as that command finds it.
    pub its: Its,
    /// What the ITS has mapped.
    pub tables: ItsTables,
    /// What was read before the first event of the command.
    pub fetch: ListOf<Made>,
    /// The parts of the command.
    pub parts: ListOf<Part>,
    /// How many of them are made.
    pub made: usize,
    /// What counts as read for what comes next.
    pub reads: ListOf<Made>,
}

/// Of an ITS of which nothing is known.
const NO_ITS: Its = Its {
    ctlr: 0,
    cbaser: 0,
    cwriter: 0,
    offset: 0,
    is_stalled: false,
};

/// Whether an event gives the ITS back.
fn is_given_back(made: &Made) -> bool
    ensures { IsTrue result ↔ IsGivenBack made.now }
{
    match (made.event, made.found) {
        (Event::ItsEnd, Found::Nothing) => true,
        _ => false,
    }
}

/// Whether an event moves the queue to an offset, where the command of these doublewords is done.
fn is_done_at(made: &Made, offset: u32, words: [u64; 4]) -> bool
    ensures { IsTrue result ↔ ((made.now.event ≡ Event.Queue offset (QueueChange.Done words)) × (made.now.found ≡ Found.Nothing)) }
{
    match (made.event, made.found) {
        (
            Event::Queue {
                offset: other,
                change: QueueChange::Done { words: done },
            },
            Found::Nothing,
        ) => other == offset && done == words,
        _ => false,
    }
}

/// Whether an event stalls the queue at an offset, at a command with the fault of this number.
fn is_stalled_at(made: &Made, offset: u32, fault: u8) -> bool
    ensures { IsTrue result ↔ ((made.now.event ≡ Event.Queue offset (QueueChange.Stalls fault)) × (made.now.found ≡ Found.Nothing)) }
{
    match (made.event, made.found) {
        (
            Event::Queue {
                offset: other,
                change: QueueChange::Stalls { fault: number },
            },
            Found::Nothing,
        ) => other == offset && number == fault,
        _ => false,
    }
}

/// The parts of the next command, by what was read: none where it has a fault.
fn command_parts(
    alloc: Global,
    shape: &GuestShape,
    tables: &ItsTables,
    commands: &[ListOf<Option<u32>>],
    number: usize,
    its: Its,
    reads: &[Made],
) -> Result<ListOf<Part>, AllocError>
    requires { IsShape shape.now }
    ensures { IfOk result (λ parts. parts ≡ command_parts_of shape.now (view_by its tables.now (targets_by commands.now number) reads.now)) }
{
    match good_command(tables, shape, command_words(shape, its, reads)) {
        Ok(command) => parts_of(alloc, shape, tables, commands, number, &command),
        Err(_) => Ok(ListOf::new(alloc)),
    }
}

impl Walk {
    /// Before the first command, with the maps after these commands and the ITS so. Where none is taken, the ITS is given back
    /// next. `AllocError` where memory is refused.
    pub(crate) fn open(
        alloc: Global,
        shape: &GuestShape,
        done: &[[u64; 4]],
        start: Option<Its>,
    ) -> Result<Walk, AllocError>
        requires { IsShape shape.now }
        ensures stage { IfOk result (λ walk. stage_of walk ≡ stage_from (mapped_by shape.now done.now) start) }
        ensures first { IfOk result (λ walk. walk.number ≡ 0) }
    {
        let step = match start {
            Some(_) => Step::BetweenCommands,
            None => Step::AtEnd,
        };
        Ok(Walk {
            step,
            number: 0,
            its: start.unwrap_or(NO_ITS),
            tables: tables_after(alloc, shape, done)?,
            fetch: ListOf::new(alloc),
            parts: ListOf::new(alloc),
            made: 0,
            reads: ListOf::new(alloc),
        })
    }

    /// Whether the ITS was given back.
    pub(crate) fn is_over(&self) -> bool
        ensures { IsTrue result ↔ (self.now.step ≡ Step.AfterEnd) }
    {
        self.step == Step::AfterEnd
    }

    /// An event that is not named counts for what comes next.
    pub(crate) fn note(&mut self, made: &Made) -> Result<(), AllocError>
        ensures stage { OnOk result (stage_of self.new ≡ noting (stage_of self.old) made.now) }
        ensures number { OnOk result (self.new.number ≡ self.old.number) }
    {
        self.reads.push(Made {
            event: made.event,
            found: made.found,
        })
    }

    /// The next command begins, if one is taken, as an event that is named comes. Whether its doublewords were read.
    fn begin(
        &mut self,
        alloc: Global,
        shape: &GuestShape,
        commands: &[ListOf<Option<u32>>],
    ) -> Result<bool, AllocError>
        requires { IsShape shape.now }
        ensures can { IfOk result (λ can. IsTrue can ↔ CanBegin shape.now (targets_by commands.now) (stage_of self.old)) }
        ensures stage { IfOk result (λ can. IsTrue can → stage_of self.new ≡ begun shape.now (targets_by commands.now) (stage_of self.old)) }
        ensures step { IfOk result (λ can. IsTrue can → self.new.step ≢ Step.BetweenCommands) }
        ensures number { self.new.number ≡ self.old.number }
    {
        let Step::BetweenCommands = self.step else {
            return Ok(true);
        };
        if !takes_command(self.its) {
            self.step = Step::AtEnd;
            return Ok(true);
        }
        if !is_fetched(shape, self.its, self.reads.as_slice()) {
            return Ok(false);
        }
        let reads = self.reads.as_slice();
        let parts = command_parts(
            alloc,
            shape,
            &self.tables,
            commands,
            self.number,
            self.its,
            reads,
        )?;
        let fetch = copied(alloc, reads)?;
        self.parts = parts;
        self.fetch = fetch;
        self.made = 0;
        self.step = Step::InCommand;
        Ok(true)
    }

    /// The next part of a command is made by an event. Whether it is that part.
    fn make_part(
        &mut self,
        alloc: Global,
        shape: &GuestShape,
        commands: &[ListOf<Option<u32>>],
        part: Part,
        made: &Made,
    ) -> Result<bool, AllocError>
        requires shape { IsShape shape.now }
        requires room { self.old.made + 1 < 2 ^ 64 }
        ensures made { IfOk result (λ ok. IsTrue ok ↔ IsPartMade shape.now (targets_by commands.now self.old.number) part self.old.reads made.now) }
        ensures after { (targets : ℕ → Option ℕ) → IfOk result (λ ok. IsTrue ok → self.new ≡ record self.old { reads = words_read_of shape.now (view_by self.old.its self.old.tables targets self.old.fetch); made = self.old.made + 1 }) }
    {
        if !is_part_made(
            shape,
            commands,
            self.number,
            part,
            self.reads.as_slice(),
            made,
        ) {
            return Ok(false);
        }
        self.reads = words_read(alloc, shape, self.its, self.fetch.as_slice())?;
        self.made += 1;
        Ok(true)
    }

    /// A command ends with an event. Whether it is its end.
    fn end_command(&mut self, alloc: Global, shape: &GuestShape, made: &Made) -> bool
        requires shape { IsShape shape.now }
        requires room { self.old.number + 1 < 2 ^ 64 }
        ensures made { (targets : ℕ → Option ℕ) → IsTrue result ↔ IsQueueMade shape.now (view_by self.old.its self.old.tables targets self.old.fetch) made.now }
        ensures after { IsTrue result → stage_of self.new ≡ Between (self.old.number + 1) (its_after self.old.its made.now.event) (maps_left self.old.tables made.now.event) [] }
        ensures number { IsTrue result → self.new.number ≡ self.old.number + 1 }
    {
        let words = command_words(shape, self.its, self.fetch.as_slice());
        match good_command(&self.tables, shape, words) {
            Ok(command) => {
                let offset = next_offset(self.its);
                if !is_done_at(made, offset, words) {
                    return false;
                }
                self.tables.carry_out(&command, shape);
                self.its.offset = offset;
                self.its.is_stalled = false;
            }
            Err(fault) => {
                if !is_stalled_at(made, self.its.offset, fault) {
                    return false;
                }
                self.its.is_stalled = true;
            }
        }
        self.step = Step::BetweenCommands;
        self.number += 1;
        self.reads = ListOf::new(alloc);
        true
    }

    /// What comes next of a command is made by an event: its next part, or its end where no part is left. Whether it is that.
    fn make(
        &mut self,
        alloc: Global,
        shape: &GuestShape,
        commands: &[ListOf<Option<u32>>],
        made: &Made,
    ) -> Result<bool, AllocError>
        requires shape { IsShape shape.now }
        requires within { self.old.step ≡ Step.InCommand }
        requires room { self.old.number + 1 < 2 ^ 64 }
        ensures fits { IfOk result (λ ok. IsTrue ok ↔ FitsNamed shape.now (targets_by commands.now) (stage_of self.old) made.now) }
        ensures stage { IfOk result (λ ok. IsTrue ok → stage_of self.new ≡ named_after shape.now (targets_by commands.now) (stage_of self.old) made.now) }
        ensures number { IfOk result (λ ok. IsTrue ok → self.new.number ≤ self.old.number + 1) }
    {
        if self.made < self.parts.len() {
            let part = self.parts.as_slice()[self.made];
            self.make_part(alloc, shape, commands, part, made)
        } else {
            Ok(self.end_command(alloc, shape, made))
        }
    }

    /// The ITS is given back by an event. Whether it is.
    fn end(&mut self, made: &Made) -> bool
        ensures fits { IsTrue result ↔ IsGivenBack made.now }
        ensures step { IsTrue result → self.new.step ≡ Step.AfterEnd }
        ensures number { self.new.number ≡ self.old.number }
    {
        if !is_given_back(made) {
            return false;
        }
        self.step = Step::AfterEnd;
        true
    }

    /// An event that is named is made. Whether it may be the next. `AllocError` where memory is refused.
    pub(crate) fn take(
        &mut self,
        alloc: Global,
        shape: &GuestShape,
        commands: &[ListOf<Option<u32>>],
        made: &Made,
    ) -> Result<bool, AllocError>
        requires shape { IsShape shape.now }
        requires room { self.old.number + 1 < 2 ^ 64 }
        ensures fits { IfOk result (λ ok. IsTrue ok ↔ FitsNamed shape.now (targets_by commands.now) (stage_of self.old) made.now) }
        ensures stage { IfOk result (λ ok. IsTrue ok → stage_of self.new ≡ named_after shape.now (targets_by commands.now) (stage_of self.old) made.now) }
        ensures number { IfOk result (λ ok. IsTrue ok → self.new.number ≤ self.old.number + 1) }
    {
        if !self.begin(alloc, shape, commands)? {
            return Ok(false);
        }
        match self.step {
            Step::InCommand => self.make(alloc, shape, commands, made),
            Step::AtEnd => Ok(self.end(made)),
            Step::BetweenCommands | Step::AfterEnd => Ok(false),
        }
    }
}
