//! The moves of an interrupt to an interface, at it, and from it.
ghost use Rattle.std.specs.Prelude.{◌≡◌, ◌<◌, ◌++◌, ◌∷◌, [], IfOk, OnOk, OnErr, IsTrue, is_some, List};
ghost use Rattle.floor_histories.specs.Words.{has_interrupt};
ghost use Rattle.floor_histories.specs.Histories.{moved_at, with_irq, with_standing, Standing as Stands, after_reach, after_take, after_leave, with_entry, without};
ghost use Rattle.std.specs.List.{list_all};
ghost use Rattle.floor_histories.specs.Words.{IsRecordOf};
ghost use Rattle.history_check.specs.Ready.{fits, IsReady};

use crate::standing::Standing;
use crate::state::State;
use floor_histories::{Entry, Irq, Key, ListOf, Moved, place_of};
use std::alloc::{AllocError, Global};

/// What stands at an interface, but for an interrupt.
fn without(alloc: Global, standing: &[Standing], key: Key) -> Result<ListOf<Standing>, AllocError>
    ensures { IfOk result (λ rest. rest ≡ without key standing.now) }
{
    let mut rest = ListOf::new(alloc);
    for one in standing {
        if !one.is_of(key) {
            rest.push(one.copied())?;
        }
    }
    Ok(rest)
}

/// What stands at an interface, with another entry of an interrupt.
fn with_entry(
    alloc: Global,
    standing: &[Standing],
    key: Key,
    entry: Entry,
) -> Result<ListOf<Standing>, AllocError>
    ensures { IfOk result (λ all. all ≡ with_entry key entry standing.now) }
{
    let mut all = ListOf::new(alloc);
    for one in standing {
        all.push(one.with_entry_of(key, entry))?;
    }
    Ok(all)
}

/// What stands at an interface, and an interrupt more.
fn with_one(
    alloc: Global,
    standing: &[Standing],
    one: Standing,
) -> Result<ListOf<Standing>, AllocError>
    ensures { IfOk result (λ all. all ≡ standing.now ++ one ∷ []) }
{
    let mut all = ListOf::new(alloc);
    for other in standing {
        all.push(other.copied())?;
    }
    all.push(one)?;
    Ok(all)
}

impl State {
    /// Puts a record in the place of an interrupt's.
    #[tactic(auto, using(crate::proofs::ReadyLemmas::ready_irq))]
    pub(crate) fn set_irq(&mut self, key: Key, irq: Irq)
        requires ready { IsReady self.old }
        requires there { IsTrue (has_interrupt self.old.guest.shape key) }
        requires valid { IsRecordOf self.old.guest.shape key irq }
        ensures value { self.new ≡ with_irq self.old key irq }
        ensures ready { IsReady self.new }
    {
        let place = place_of(key, &self.guest.shape);
        self.guest.irqs.set(place, irq);
    }

    /// Puts others at a vCPU's interface.
    #[tactic(auto, using(crate::proofs::ReadyLemmas::ready_standing))]
    pub(crate) fn set_standing(&mut self, vcpu: u32, standing: ListOf<Standing>)
        requires ready { IsReady self.old }
        requires there { vcpu < self.old.guest.shape.vcpus }
        requires fits { IsTrue (list_all (fits self.old.guest.shape) standing) }
        ensures value { self.new ≡ with_standing self.old vcpu standing }
        ensures ready { IsReady self.new }
    {
        self.at.set(vcpu as usize, standing);
    }

    /// An interrupt gets to a vCPU's interface: pending there with its latched causes, which its record loses, or active there,
    /// and its record keeps them. `AllocError` where memory is refused: then nothing happened.
    pub fn reach(&mut self, alloc: Global, key: Key, vcpu: u32) -> Result<(), AllocError>
        requires ready { IsReady self.old }
        requires key { IsTrue (has_interrupt self.old.guest.shape key) }
        requires vcpu { vcpu < self.old.guest.shape.vcpus }
        ensures ok { OnOk result (self.new ≡ after_reach key vcpu self.old) }
        ensures err { OnErr result (self.new ≡ self.old) }
        ensures ready { IsReady self.new }
    {
        let irq = self.irq(key);
        let Moved { irq, entry } = Moved::reached(&irq);
        let standing = with_one(alloc, self.standing(vcpu), Standing { key, entry })?;
        self.set_irq(key, irq);
        self.set_standing(vcpu, standing);
        Ok(())
    }

    /// An interrupt that is active at a vCPU's interface becomes pending there too, with the latched causes of its record,
    /// which loses them. Nothing happens where it is not there. `AllocError` where memory is refused: then nothing happened.
    pub fn take(&mut self, alloc: Global, key: Key, vcpu: u32) -> Result<(), AllocError>
        requires ready { IsReady self.old }
        requires key { IsTrue (has_interrupt self.old.guest.shape key) }
        requires vcpu { vcpu < self.old.guest.shape.vcpus }
        ensures ok { OnOk result (self.new ≡ after_take key vcpu self.old) }
        ensures err { OnErr result (self.new ≡ self.old) }
        ensures ready { IsReady self.new }
    {
        let Some(moved) = self.moved(key, vcpu) else {
            return Ok(());
        };
        let taken = moved.taken();
        let standing = with_entry(alloc, self.standing(vcpu), key, taken.entry)?;
        self.set_irq(key, taken.irq);
        self.set_standing(vcpu, standing);
        Ok(())
    }

    /// An interrupt leaves a vCPU's interface: its record gets back the latched causes that are there, and is active by the
    /// vCPU exactly where it is active there. Nothing happens where it is not there. `AllocError` where memory is refused: then
    /// nothing happened.
    pub fn leave(&mut self, alloc: Global, key: Key, vcpu: u32) -> Result<(), AllocError>
        requires ready { IsReady self.old }
        requires key { IsTrue (has_interrupt self.old.guest.shape key) }
        requires vcpu { vcpu < self.old.guest.shape.vcpus }
        ensures ok { OnOk result (self.new ≡ after_leave key vcpu self.old) }
        ensures err { OnErr result (self.new ≡ self.old) }
        ensures ready { IsReady self.new }
    {
        let Some(moved) = self.moved(key, vcpu) else {
            return Ok(());
        };
        let standing = without(alloc, self.standing(vcpu), key)?;
        self.set_irq(key, moved.left(vcpu));
        self.set_standing(vcpu, standing);
        Ok(())
    }
}
