//! A message whose event a command discards, once its line was found to have it and before the device enters the line.
ghost use Rattle.std.specs.Prelude.{◌≡◌, map, length};
ghost use Rattle.port_table.specs.All.{told_words, told_root};
ghost use Rattle.port_table.specs.Told.{AreRoots, opening_root, words_at};

use crate::acts::Act::{self, Fill, Lpi, Post, Queue};
use crate::acts::{FOUR_TAKEN, SET_UP, TAKE_FOUR, goes_over};
use crate::guest::{LATCHED, NOTHING, SHAPE};
use crate::writes::write_register;
use gic_msi::{CoreStep, MsiMiss, Port};
use port_rest::{DEVICE_ID, DISCARD, EVENT_ID, one_guest};
use port_seq::{Actor, GuestShape, ItsTables, Local, Mode};
use port_table::{RootSeat, SharedWords, split, start};
use std::alloc::{AllocError, Global};
use std::sync::Wait;
use std::test::Fail;

/// The port of a device. Before the device enters a translation line, vCPU 0 has the ITS take the command at the place 4 of its queue,
/// over the port of its own.
#[derive(Drop)]
struct Overtaken<'r, P, Q, R> {
    device: P,
    vcpu: Q,
    rt: &'r R,
}

impl<P: Port, Q: Port, R: Wait> Port for Overtaken<'_, P, Q, R> {
    ghost seen = { λ overtaken. P.seen overtaken.device };

    ghost is_port = { λ overtaken. P.is_port overtaken.device };

    fn actor(&self) -> u32 {
        self.device.actor()
    }

    fn shape(&self) -> GuestShape {
        self.device.shape()
    }

    fn local(&self) -> Local {
        self.device.local()
    }

    fn local_ref(&self) -> &Local {
        self.device.local_ref()
    }

    fn step(&mut self, step: CoreStep) -> u64 {
        if matches!(step, CoreStep::LineEnter { .. }) {
            let _ = write_register(self.rt, &mut self.vcpu, 0x88, 8, 0xA0);
        }
        self.device.step(step)
    }

    fn take_tables(&mut self) -> ItsTables {
        self.device.take_tables()
    }

    fn put_tables(&mut self, tables: ItsTables) {
        self.device.put_tables(tables);
    }
}

/// Makes an act over each of these. Whether all go so.
fn go_over<P: Port, R: Wait>(rt: &R, port: &mut P, acts: &[Act]) -> bool {
    for act in acts {
        if !goes_over(rt, port, *act) {
            return false;
        }
    }
    true
}

/// The device finds the message in its line, which is empty once it is to enter it: the command took it out. Whether that goes so.
fn is_overtaken<R: Wait>(rt: &R, words: &SharedWords, root: RootSeat) -> bool
    requires one { length (told_words words.now) ≡ 1 }
    requires vcpus { (words_at (told_words words.now) 0).guest.shape.vcpus ≡ 2 }
    requires devices { (words_at (told_words words.now) 0).guest.shape.devices ≡ 1 }
    requires roots { AreRoots (told_words words.now) (told_root root) }
    requires fresh { told_root root ≡ map opening_root (told_words words.now) }
{
    let mut root = root;
    let mut vcpu = split(words, &mut root, Actor::Vcpu { guest: 0, vcpu: 0 });
    let mut device = split(
        words,
        &mut root,
        Actor::Device {
            guest: 0,
            device: 0,
        },
    );
    if !go_over(rt, &mut vcpu, SET_UP.as_slice())
        || !go_over(rt, &mut vcpu, &[TAKE_FOUR, FOUR_TAKEN, Queue(4, DISCARD)])
        || !go_over(rt, &mut device, &[Fill(DEVICE_ID, EVENT_ID), Lpi(LATCHED)])
    {
        return false;
    }
    let mut overtaken = Overtaken { device, vcpu, rt };
    let is_changed = Post(DEVICE_ID, EVENT_ID, Err(MsiMiss::Changed { found: 0 }));
    go_over(rt, &mut overtaken, &[is_changed, Lpi(NOTHING)])
}

/// Whether it goes so in a guest that just opened.
fn is_overtaken_of<R: Wait>(rt: &R, alloc: Global) -> Result<bool, AllocError> {
    let scenario = one_guest(alloc, SHAPE, true, &[])?;
    let guests = scenario.guests.as_slice();
    if guests.len() != 1 || guests[0].shape != SHAPE || !scenario.is_good(alloc, Mode::Threads)? {
        return Ok(false);
    }
    let (words, root) = start(alloc, &scenario)?;
    Ok(is_overtaken(rt, &words, root))
}

#[test]
fn a_command_overtakes_a_message(rt: HostRuntime) -> Result<(), Fail> {
    assert!(rt; is_overtaken_of(&rt, rt.alloc())?);
    Ok(())
}
