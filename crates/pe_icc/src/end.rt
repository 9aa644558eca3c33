//! The end of an interrupt that is not at the vCPU's interface.
ghost use Rattle.std.specs.Prelude.{◌≡◌, ◌%◌, ◌^◌, IsTrue};
ghost use Rattle.pe_loop.specs.Core.{ended_by, has_no_cand, shape_of};
ghost use Rattle.pe_loop.specs.Words.{has_interrupt};
ghost use Rattle.pe_loop.specs.Registers.{intid_written as intid_in};
ghost use Rattle.pe_loop.specs.Lists.{IsEntry, chosen_as as choice_with};
ghost use Rattle.pe_icc.specs.Prepare.{emptied, LooksFor, CanClaimFar, ClaimsFar};

use pe_loop::{
    Choice, CoreStep, Field, HCR_EN, IccReg, IchRegs, Irq, Key, Loaded, LrEntry, LrState,
    MAX_LIST_REGISTERS, Port, WordId, claim, key_of, pending,
};

/// The INTID in a value that is written to EOIR or DIR: bits [23:0].
const WRITTEN_INTID: Field = Field {
    place: 0,
    width: 24,
};

/// The INTID in a value that is written to EOIR or DIR: bits [23:0].
fn intid_written(value: u64) -> u32
    ensures { result ≡ intid_in value }
{
    WRITTEN_INTID.of(value) as u32
}

/// The interrupt that an access ends or deactivates, if the guest has one with the INTID that is written.
pub(crate) fn ended<P: Port>(port: &P, reg: IccReg, write: Option<u64>) -> Option<Key>
    ensures { result ≡ ended_by (shape_of (P.seen port.now)) (P.seen port.now).actor reg write }
{
    let (IccReg::Eoir0 | IccReg::Eoir1 | IccReg::Dir, Some(value)) = (reg, write) else {
        return None;
    };
    key_of(intid_written(value), port.actor(), &port.shape())
}

/// An interrupt in its list register with this State.
pub(crate) fn chosen_as(key: Key, irq: &Irq, state: LrState) -> Choice
    ensures value { result ≡ choice_with state (record { key = key; irq = irq.now }) }
    ensures entry { IsEntry result.entry }
{
    let returns_pending = state == LrState::Active && pending(irq);
    Choice {
        key,
        irq: *irq,
        entry: LrEntry {
            id: key.intid(),
            prio: irq.prio,
            group: irq.group,
            state,
            eoi: !irq.edge || returns_pending,
            hw: None,
        },
    }
}

/// The vCPU on its PE with no interrupt in its list registers, and ICH_HCR En alone.
pub(crate) fn empty(vcpu: Loaded) -> Loaded
    ensures { result ≡ emptied vcpu }
{
    Loaded {
        regs: IchRegs {
            lr: [0; MAX_LIST_REGISTERS],
            hcr: HCR_EN,
            ..vcpu.regs
        },
        held: [None; MAX_LIST_REGISTERS],
        ..vcpu
    }
}

/// Takes an interrupt that is active by the vCPU to its interface, into list register 0 with State 2; where its word is
/// another one by now, the vCPU kicks itself.
pub(crate) fn claim_far<P: Port>(port: &mut P, vcpu: Loaded, key: Key, irq: &Irq) -> Loaded
    requires { CanClaimFar (P.seen port.old) vcpu key irq.now }
    ensures { ClaimsFar (P.seen port.old) (P.seen port.new) key vcpu result }
{
    let mut bare = empty(vcpu);
    if claim(port, key, irq) {
        let choice = chosen_as(key, irq, LrState::Active);
        bare.put(0, &choice.entry, choice.held());
    } else {
        let vcpu = port.actor();
        port.step(CoreStep::Kick { vcpu });
    }
    bare
}

/// Looks at the interrupt that the vCPU is to end.
pub(crate) fn look_for<P: Port>(port: &mut P, key: Key) -> Irq
    requires there { IsTrue (has_interrupt (shape_of (P.seen port.old)) key) }
    requires none { IsTrue (has_no_cand (P.seen port.old).local) }
    ensures { LooksFor (P.seen port.old) (P.seen port.new) key result }
{
    let word = port.step(CoreStep::Look {
        word: WordId::Irq(key),
    });
    match pe_loop::unpack(word) {
        Some(irq) => irq,
        None => unreachable!(),
    }
}
