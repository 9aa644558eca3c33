//! All PEs and vCPUs of a scenario, over its port.
ghost use Rattle.std.specs.Prelude.{◌≡◌, ◌+◌, ◌≤◌, All, IfOk, None, length};
ghost use Rattle.law_ends_agree.specs.Words.{MAX_LIST_REGISTERS, Vcpu as VcpuActor};
ghost use Rattle.law_one_thread_is_eager.specs.PortSeq.Ports.{told_all};
ghost use Rattle.law_one_thread_is_eager.specs.PortSeq.Told.{IsOpening};
ghost use Rattle.run_seq.specs.Agenda.{states_in};
ghost use Rattle.run_seq.specs.Opened.{AreOpened};

use crate::room::zeros;
use crate::start::Start;
use law_ends_agree::{
    Actor, Answer, DeviceOp, GuestOp, LrList, NoMemory, PeOp, Pes, Step, VcpuName, answer_of,
    move_pes,
};
use law_one_thread_is_eager::{SeqPort, Vcpus};
use std::alloc::{AllocError, Global};
use std::sync::Wait;

/// The PEs and the vCPUs of a scenario.
#[derive(Drop)]
pub(crate) struct Machine {
    /// The list registers of each PE, 1 to 16.
    lrs: u32,
    /// Which vCPU stands on each PE.
    pes: Pes,
    /// The vCPUs, by guest.
    guests: Vec<Vcpus>,
}

/// The first vCPU of a guest: by it the port tells of the guest.
pub(crate) fn first_of(guest: u32) -> Actor
    ensures { result ≡ VcpuActor guest 0 }
{
    Actor::Vcpu { guest, vcpu: 0 }
}

/// The vCPUs of all guests that just opened, by guest, each on no PE of so many list registers. An error where memory is refused.
fn open_all(
    alloc: Global,
    port: &mut SeqPort,
    count: u32,
    lrs: u32,
) -> Result<Vec<Vcpus>, AllocError>
    requires opening { IsOpening (states_in (told_all port.old)) (told_all port.old) }
    requires all { count ≡ length (told_all port.old).guests }
    requires few { count ≤ 4 }
    requires lrs { 1 ≤ lrs × lrs ≤ MAX_LIST_REGISTERS }
    ensures { IfOk result (λ guests. AreOpened (states_in (told_all port.old)) lrs (told_all port.new) guests.items count) }
{
    let mut guests = Vec::new(alloc);
    for guest in 0..count {
        port.set_actor(first_of(guest));
        guests.push(Vcpus::opening(alloc, guest, port.current_mut(), lrs)?)?;
    }
    Ok(guests)
}

impl Machine {
    ghost use Rattle.law_ends_agree.specs.Calls.{Access, Device as DeviceCall};
    ghost use Rattle.law_ends_agree.specs.ScnBase.declared.step.Step.TheVariants.{Pe as PeStep};
    ghost use Rattle.law_one_thread_is_eager.specs.PortSeq.Told.{guest_at};
    ghost use Rattle.law_one_thread_is_eager.specs.PePlace.Place.{entered, left};
    ghost use Rattle.run_seq.specs.Machine.{HasGuest, GuestActs, IsMachine, IsReady, DoesStep, OpensMachine, Closes};
    ghost use Rattle.run_seq.specs.Agenda.{CanStart};
    ghost use Rattle.run_seq.specs.Acts.{HasVcpu, HasLoaded, CanOperate, CanReceive, MovesVcpu, ShowsVcpu, CallsOnce, ActsAs};
    ghost use Rattle.law_one_thread_is_eager.specs.PePlace.Place.{IsRoom};
    ghost use Rattle.run_seq.specs.Room.{HasRoomFor};

    /// The PEs and the vCPUs as a run begins: whoever is to stand on a PE enters it. `NoMemory` comes where memory is refused.
    pub(crate) fn opening<R: Wait>(
        rt: &R,
        alloc: Global,
        port: &mut SeqPort,
        start: &Start,
    ) -> Result<Machine, NoMemory>
        requires opening { IsOpening (states_in (told_all port.old)) (told_all port.old) }
        requires all { start.now.guests ≡ length (told_all port.old).guests }
        requires can { CanStart start.now.lrs (states_in (told_all port.old)) start.now.pes }
        ensures { IfOk result (λ machine. OpensMachine start.now.lrs (states_in (told_all port.old)) start.now.pes machine (told_all port.new)) }
    {
        let mut machine = Machine {
            lrs: start.lrs,
            pes: Pes::from(vec![in alloc; None; start.pes.len()]?),
            guests: open_all(alloc, port, start.guests, start.lrs)?,
        };
        for (pe, resident) in start.pes.as_slice().iter().enumerate() {
            if let Some(name) = *resident {
                let op = PeOp::Enter {
                    guest: name.guest,
                    vcpu: name.vcpu,
                };
                machine.step(rt, port, &Step::Pe { pe: pe as u32, op }, None);
            }
        }
        Ok(machine)
    }

    /// A vCPU that is on no PE enters one.
    fn enter<R: Wait>(&mut self, rt: &R, port: &mut SeqPort, name: VcpuName)
        requires { HasVcpu self.old (told_all port.old) name }
        ensures { GuestActs name.guest (MovesVcpu name.vcpu entered) self.old self.new (told_all port.old) (told_all port.new) }
    {
        port.set_actor(first_of(name.guest));
        self.guests[name.guest as usize].enter(rt, port.current_mut(), name.vcpu);
    }

    /// A vCPU that is on a PE leaves it.
    fn leave<R: Wait>(&mut self, rt: &R, port: &mut SeqPort, name: VcpuName)
        requires { HasVcpu self.old (told_all port.old) name }
        ensures { GuestActs name.guest (MovesVcpu name.vcpu left) self.old self.new (told_all port.old) (told_all port.new) }
    {
        port.set_actor(first_of(name.guest));
        self.guests[name.guest as usize].leave(rt, port.current_mut(), name.vcpu);
    }

    /// A vCPU that is on a PE leaves it and enters it again: ICH_HCR and the list registers of the PE then, in a list that has room
    /// for them.
    fn show<R: Wait>(
        &mut self,
        rt: &R,
        port: &mut SeqPort,
        name: VcpuName,
        room: Vec<u64>,
    ) -> LrList
        requires loaded { HasLoaded self.old (told_all port.old) name }
        requires room { IsRoom room }
        ensures { GuestActs name.guest (ShowsVcpu name.vcpu result) self.old self.new (told_all port.old) (told_all port.new) }
    {
        port.set_actor(first_of(name.guest));
        let guest = &mut self.guests[name.guest as usize];
        guest.show(rt, port.current_mut(), name.vcpu, room)
    }

    /// A vCPU that is on a PE does an operation.
    fn operate<R: Wait>(
        &mut self,
        rt: &R,
        port: &mut SeqPort,
        name: VcpuName,
        op: &GuestOp,
    ) -> Option<u64>
        requires { CanOperate self.old (told_all port.old) name op.now }
        ensures { GuestActs name.guest (CallsOnce name.vcpu (Access op.now) result) self.old self.new (told_all port.old) (told_all port.new) }
    {
        port.set_actor(first_of(name.guest));
        let guest = &mut self.guests[name.guest as usize];
        guest.operate(rt, port.current_mut(), name.vcpu, op)
    }

    /// A device of a guest does an operation.
    fn receive<R: Wait>(
        &mut self,
        rt: &R,
        port: &mut SeqPort,
        guest: u32,
        device: u32,
        op: &DeviceOp,
    )
        requires { CanReceive self.old (told_all port.old) guest device op.now }
        ensures { GuestActs guest (CallsOnce ((guest_at (told_all port.old) guest).guest.shape.vcpus + device) (DeviceCall op.now) None) self.old self.new (told_all port.old) (told_all port.new) }
    {
        port.set_actor(first_of(guest));
        self.guests[guest as usize].receive(rt, port.current_mut(), device, op);
    }

    /// A step of a PE, before the PEs are noted anew, and what it answers, in a list that has room for it.
    fn pe_step<R: Wait>(
        &mut self,
        rt: &R,
        port: &mut SeqPort,
        pe: u32,
        op: PeOp,
        room: Option<Vec<u64>>,
    ) -> Answer
        requires ready { IsReady self.old (told_all port.old) (PeStep pe op) }
        requires room { HasRoomFor (PeStep pe op) room }
        ensures { ActsAs self.old self.new (told_all port.old) (told_all port.new) (PeStep pe op) result }
    {
        match (op, self.pes.as_slice()[pe as usize]) {
            (PeOp::Enter { guest, vcpu }, _) => self.enter(rt, port, VcpuName { guest, vcpu }),
            (PeOp::Exit, Some(name)) => self.leave(rt, port, name),
            (PeOp::Exit, None) => {}
            (PeOp::Lrs, Some(name)) => {
                return Answer::Regs(self.show(rt, port, name, room.unwrap()));
            }
            (PeOp::Lrs, None) => return Answer::Regs(zeros(room.unwrap(), self.lrs)),
        }
        Answer::Nothing
    }

    /// A step, before the PEs are noted anew, and what it answers.
    fn act<R: Wait>(
        &mut self,
        rt: &R,
        port: &mut SeqPort,
        step: &Step,
        room: Option<Vec<u64>>,
    ) -> Answer
        requires ready { IsReady self.old (told_all port.old) step.now }
        requires room { HasRoomFor step.now room }
        ensures { ActsAs self.old self.new (told_all port.old) (told_all port.new) step.now result }
    {
        match *step {
            Step::Vcpu { guest, vcpu, op } => {
                let name = VcpuName { guest, vcpu };
                answer_of(self.operate(rt, port, name, &op))
            }
            Step::Device { guest, device, op } => {
                self.receive(rt, port, guest, device, &op);
                Answer::Nothing
            }
            Step::Pe { pe, op } => self.pe_step(rt, port, pe, op, room),
        }
    }

    /// Does a step, and answers what it reads: the list registers that it shows in a list that has room for them. It asks for no
    /// memory.
    pub(crate) fn step<R: Wait>(
        &mut self,
        rt: &R,
        port: &mut SeqPort,
        step: &Step,
        room: Option<Vec<u64>>,
    ) -> Answer
        requires ready { IsReady self.old (told_all port.old) step.now }
        requires room { HasRoomFor step.now room }
        ensures { DoesStep self.old self.new (told_all port.old) (told_all port.new) step.now result }
    {
        let answer = self.act(rt, port, step, room);
        move_pes(step, &mut self.pes);
        answer
    }

    /// Each vCPU that is on a PE leaves it.
    pub(crate) fn close<R: Wait>(&mut self, rt: &R, port: &mut SeqPort)
        requires of { IsMachine self.old (told_all port.old) }
        requires few { length self.old.pes ≤ 8 }
        ensures { Closes self.old self.new (told_all port.old) (told_all port.new) }
    {
        for pe in 0..self.pes.len() {
            if self.pes.as_slice()[pe].is_some() {
                let op = PeOp::Exit;
                self.step(rt, port, &Step::Pe { pe: pe as u32, op }, None);
            }
        }
    }
}
