//! Hints, as people read them.

use crate::field::{Amiss, Kind, What};
use crate::held::{GuestRoom, Held, Room};
use crate::hint::{Hint, code_name};
use crate::limit::{Limit, Multiple};
use crate::nearest::nearest;
use crate::place::Place;
use gic_host::scenarios::{Form, SHAPE};
use std::fmt;

/// The most characters of an input that are told of one name.
const MAX_TOLD: usize = 80;

/// A name as it stands in an input, cut where it is long.
#[derive(Clone, Copy)]
struct Cut<'v>(&'v str);

impl fmt::Display for Cut<'_> {
    fn fmt<W: fmt::Write>(&self, f: &mut fmt::Formatter<W>) -> fmt::Result {
        match self.0.char_indices().nth(MAX_TOLD) {
            Some((end, _)) => write!(f, "{:?}..", &self.0[..end]),
            None => write!(f, "{:?}", self.0),
        }
    }
}

/// The place.
impl fmt::Display for Place {
    fn fmt<W: fmt::Write>(&self, f: &mut fmt::Formatter<W>) -> fmt::Result {
        match self {
            Place::Scenario => f.write_str("outside of the steps"),
            Place::Guest(guest) => write!(f, "guest {guest}"),
            Place::Preset { guest, preset } => write!(f, "guest {guest}, preset {preset}"),
            Place::Step(number) => write!(f, "step {number}"),
        }
    }
}

/// What a field has to hold.
impl fmt::Display for Kind {
    fn fmt<W: fmt::Write>(&self, f: &mut fmt::Formatter<W>) -> fmt::Result {
        f.write_str(match self {
            Kind::Number => "a number from 0 to 2^64 - 1, as 40 or \"0x28\"",
            Kind::Flag => "true or false",
            Kind::Yes => "true",
            Kind::Text => "a text",
            Kind::Pair => "a list of two numbers, as [0,1]",
            Kind::List => "a list",
        })
    }
}

/// The range of a number.
impl fmt::Display for Limit {
    fn fmt<W: fmt::Write>(&self, f: &mut fmt::Formatter<W>) -> fmt::Result {
        write!(f, "{} to {}", self.least, self.most)?;
        match self.multiple {
            Multiple::One => Ok(()),
            multiple => write!(f, ", a multiple of {}", multiple.number()),
        }
    }
}

/// What a field holds, behind its name.
impl fmt::Display for Held<'_> {
    fn fmt<W: fmt::Write>(&self, f: &mut fmt::Formatter<W>) -> fmt::Result {
        match *self {
            Held::Number(number) => write!(f, " is {number}"),
            Held::Pair(one, other) => write!(f, " is [{one},{other}]"),
            Held::Text(text) => write!(f, " is {}", Cut(text)),
            Held::Other => Ok(()),
        }
    }
}

/// The interrupts that a guest shares.
impl fmt::Display for GuestRoom {
    fn fmt<W: fmt::Write>(&self, f: &mut fmt::Formatter<W>) -> fmt::Result {
        write!(
            f,
            "its guest has {} SPIs from 32 on and {} from 4096 on",
            self.spis, self.espis
        )
    }
}

/// The fields that name the forms of the steps of an actor.
fn forms_of(actor: &str) -> &'static str {
    match actor {
        "vcpu" => "\"icc\", \"gicd\", \"gicr\", \"gits\", \"ram\"",
        "dev" => "\"message\", \"wire\", \"msi\"",
        _ => "\"enter\", \"exit\", \"lrs\"",
    }
}

/// The field that says who does a step of a form.
fn actor_of(form: Form) -> &'static str {
    match form {
        Form::AccessRegister
        | Form::AccessDistributor
        | Form::AccessRedistributor
        | Form::AccessIts
        | Form::AccessMemory => "vcpu",
        Form::SendMessage | Form::MoveWire | Form::SendMsi => "dev",
        Form::EnterPe | Form::ExitPe | Form::ShowPe => "pe",
    }
}

/// What is amiss with the shape of an object.
#[derive(Clone, Copy)]
pub(crate) struct OfShape<'h>(pub(crate) &'h Amiss<'h>, pub(crate) Held<'h>);

impl fmt::Display for OfShape<'_> {
    fn fmt<W: fmt::Write>(&self, f: &mut fmt::Formatter<W>) -> fmt::Result {
        let field = Cut(self.0.field);
        match self.0.what {
            What::Unknown => write!(f, "unknown field {field}"),
            What::OfOthers if self.0.field == "to" => {
                write!(f, "field {field} is for ids from 32 on")
            }
            What::OfOthers => write!(f, "field {field} is for ids below 32"),
            What::SecondForm(form) => {
                write!(
                    f,
                    "fields {:?} and {field} are two forms of a step",
                    form.row().name
                )
            }
            What::OtherActor(form) => {
                let (name, actor) = (form.row().name, actor_of(form));
                write!(
                    f,
                    "field {field} does not go with {name:?}, which {actor:?} does"
                )
            }
            What::NoForm => write!(f, "field {field} wants one of {}", forms_of(self.0.field)),
            What::NoActor => f.write_str("one of \"vcpu\", \"dev\", \"pe\" is missing"),
            What::Missing(kind) => write!(f, "field {field} is missing: {kind}"),
            What::WrongKind(kind) => match self.1 {
                Held::Other => write!(f, "field {field} is not {kind}"),
                held => write!(f, "field {field}{held}, not {kind}"),
            },
            _ => Ok(()),
        }
    }
}

/// What is amiss with a number.
#[derive(Clone, Copy)]
struct OfNumber<'h>(&'h Amiss<'h>, Held<'h>);

impl fmt::Display for OfNumber<'_> {
    fn fmt<W: fmt::Write>(&self, f: &mut fmt::Formatter<W>) -> fmt::Result {
        let (field, held) = (Cut(self.0.field), self.1);
        match self.0.what {
            What::OutOfRange { limit, .. } => write!(f, "field {field}{held}: {limit}"),
            What::WrongLength { found, limit } => {
                write!(f, "field {field} has {found} elements: {limit}")
            }
            What::NotEdge => write!(f, "field {field} has to be true of an SGI, ids 0 to 15"),
            What::BadSize { .. } => write!(f, "field {field}{held}: 1, 2, 4 or 8"),
            What::TooLong { size } => write!(f, "field {field}{held}: \"size\" is {size} bytes"),
            What::TooLarge => write!(f, "field {field}{held}: both below 2^32"),
            _ => Ok(()),
        }
    }
}

/// What there is of what a field names.
#[derive(Clone, Copy)]
struct WhatIsThere<'h>(&'h str, Room);

impl fmt::Display for WhatIsThere<'_> {
    fn fmt<W: fmt::Write>(&self, f: &mut fmt::Formatter<W>) -> fmt::Result {
        let room = self.1;
        let Some(guest) = room.guest else {
            return match self.0 {
                "pe" => write!(f, "PEs, from 0: {}", room.pes),
                _ => write!(f, "guests, from 0: {}", room.guests),
            };
        };
        match self.0 {
            "pe" => write!(f, "PEs, from 0: {}", room.pes),
            "dev" => write!(f, "devices, from 0: {}", guest.devices),
            "vcpu" | "to" | "of" | "enter" => write!(f, "vCPUs, from 0: {}", guest.vcpus),
            "wire" => write!(f, "{guest}, and a PPI, 16 to 31, wants \"vcpu\""),
            "msi" => f.write_str("its guest has no LPIs"),
            _ => write!(f, "{guest}"),
        }
    }
}

/// Where an access has to lie.
#[derive(Clone, Copy)]
struct WhereInside<'h>(&'h str, Room);

impl fmt::Display for WhereInside<'_> {
    fn fmt<W: fmt::Write>(&self, f: &mut fmt::Formatter<W>) -> fmt::Result {
        match (self.0, self.1.guest) {
            ("gicd", _) => f.write_str("below 0x10000"),
            ("gicr" | "gits", _) => f.write_str("below 0x20000"),
            (_, Some(guest)) => {
                write!(f, "aligned to its size, in {} bytes of memory", guest.ram)
            }
            (_, None) => f.write_str("aligned to its size, in memory"),
        }
    }
}

/// What is amiss with what a field names.
#[derive(Clone, Copy)]
struct OfName<'h>(&'h Amiss<'h>, Held<'h>, Room);

impl fmt::Display for OfName<'_> {
    fn fmt<W: fmt::Write>(&self, f: &mut fmt::Formatter<W>) -> fmt::Result {
        let (name, held, room) = (self.0.field, self.1, self.2);
        let field = Cut(name);
        match self.0.what {
            What::NoRegister => match nearest(held) {
                Some(reg) => write!(
                    f,
                    "field {field}{held}, no register: is it {:?}?",
                    reg.name()
                ),
                None => write!(f, "field {field}{held}, no register"),
            },
            What::NotReadable => write!(f, "field {field}{held}, which cannot be read"),
            What::NotWritable => write!(f, "field {field}{held}, which cannot be written"),
            What::NotThere => write!(
                f,
                "field {field}{held}, not there: {}",
                WhatIsThere(name, room)
            ),
            What::NotLoaded => write!(f, "field {field}{held}, a vCPU that is on no PE"),
            What::NoVcpu => write!(f, "field {field}{held}, a PE that has no vCPU"),
            What::Busy => write!(
                f,
                "field {field}{held}: that vCPU is on a PE, or the PE has one"
            ),
            What::NotOnThreads => write!(f, "field {field} is not for threads, which place vCPUs"),
            What::SameLevel => {
                write!(
                    f,
                    "field {field}{held}: that wire has this level, or another device's"
                )
            }
            What::Outside => write!(f, "field {field}{held}: {}", WhereInside(name, room)),
            _ => Ok(()),
        }
    }
}

/// The fault in one line.
impl fmt::Display for Hint<'_> {
    fn fmt<W: fmt::Write>(&self, f: &mut fmt::Formatter<W>) -> fmt::Result {
        write!(f, "{}: {}", self.place, code_name(self.fault.code))?;
        let Some(amiss) = &self.amiss else {
            return match self.fault.code {
                SHAPE => f.write_str(": no object"),
                _ => Ok(()),
            };
        };
        match amiss.what {
            What::Unknown
            | What::OfOthers
            | What::SecondForm(_)
            | What::OtherActor(_)
            | What::NoForm
            | What::NoActor
            | What::Missing(_)
            | What::WrongKind(_) => write!(f, ": {}", OfShape(amiss, self.held)),
            What::OutOfRange { .. }
            | What::WrongLength { .. }
            | What::NotEdge
            | What::BadSize { .. }
            | What::TooLong { .. }
            | What::TooLarge => write!(f, ": {}", OfNumber(amiss, self.held)),
            _ => write!(f, ": {}", OfName(amiss, self.held, self.room)),
        }
    }
}
