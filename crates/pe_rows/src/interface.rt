//! What a vCPU reads at its CPU interface, and what stands in the registers of its PE meanwhile.
ghost use Rattle.std.specs.Prelude.{◌≡◌, IsTrue, IfSome, if◌then◌else◌};
ghost use Rattle.port_seq.specs.Words.{Spi, has_interrupt};
ghost use Rattle.pe_mem.specs.Core.{WireUp, WireDown, shape_of};
ghost use Rattle.pe_icc.specs.PeLoop.Stay.{IsUp};

use crate::entry::enter_told;
use pe_icc::{Loaded, Port, enter, icc_op, leave};
use pe_mem::{CoreStep, GuestShape, raise, settle};
use port_rest::{one_guest, sgi, spi};
use port_seq::{IccReg, Key, Mode, Scenario, SeqPort};
use std::alloc::{AllocError, Global};
use std::sync::Wait;
use std::test::Fail;

/// Two vCPUs, SPIs 32 to 63, and a device.
const SHAPE: GuestShape = GuestShape {
    vcpus: 2,
    spis: 32,
    espis: 0,
    devices: 1,
    lpis: 0,
    ram: 8,
};

/// The SGI of the rows.
const SGI: u32 = 5;

/// What is done to vCPU 0, which is on a PE, or what it does.
#[derive(Clone, Copy)]
enum Act {
    /// Nothing.
    Rest,
    /// A message makes an SPI pending.
    Message(u32),
    /// The wire of an SPI goes up.
    Up(u32),
    /// It goes down.
    Down(u32),
    /// A register of the CPU interface reads this.
    Read(IccReg, u64),
    /// A value is written to one.
    Write(IccReg, u64),
    /// The vCPU leaves its PE and enters it again: ICH_HCR and the first two list registers then.
    Stored(u32, u64, u64),
}

/// A guest with the interrupts 40, 41 and 42, of which 42 comes first, and an SGI of each vCPU.
fn scenario(alloc: Global, edge: bool) -> Result<Scenario, AllocError> {
    one_guest(
        alloc,
        SHAPE,
        true,
        &[
            spi(40, 0xA0, edge, 0),
            spi(41, 0xA0, true, 0),
            spi(42, 0x20, true, 0),
            sgi(SGI, 0xA0, 0),
            sgi(SGI, 0xA0, 1),
        ],
    )
}

/// A message makes an SPI pending.
fn message<P: Port>(port: &mut P, vcpu: &Loaded, id: u32)
    requires up { IsUp (P.seen port.old) vcpu.now }
    requires there { IsTrue (has_interrupt (shape_of (P.seen port.old)) (Spi id)) }
    ensures { IsUp (P.seen port.new) vcpu.now }
{
    raise(port, Key::Spi(id));
}

/// The step by which the wire of an SPI moves.
fn wire_step(id: u32, up: bool) -> CoreStep
    ensures { result ≡ (if up then WireUp (Spi id) else WireDown (Spi id)) }
{
    let key = Key::Spi(id);
    if up {
        CoreStep::WireUp { key }
    } else {
        CoreStep::WireDown { key }
    }
}

/// The wire of an SPI moves.
fn wire<P: Port>(port: &mut P, vcpu: &Loaded, id: u32, up: bool)
    requires up { IsUp (P.seen port.old) vcpu.now }
    requires there { IsTrue (has_interrupt (shape_of (P.seen port.old)) (Spi id)) }
    ensures { IsUp (P.seen port.new) vcpu.now }
{
    port.step(wire_step(id, up));
    settle(port);
}

/// The vCPU leaves its PE, and enters it again.
fn move_again<P: Port>(port: &mut P, vcpu: Loaded) -> Loaded
    requires { IsUp (P.seen port.old) vcpu }
    ensures { IsUp (P.seen port.new) result }
{
    let lrs = vcpu.regs.n;
    let shelved = leave(port, vcpu);
    enter(port, shelved, lrs)
}

/// An access of a register: its value if it is a write, and what it answers. None where it answers otherwise.
fn access<P: Port, R: Wait>(
    rt: &R,
    port: &mut P,
    vcpu: Loaded,
    reg: IccReg,
    write: Option<u64>,
    answer: Option<u64>,
) -> Option<Loaded>
    requires { IsUp (P.seen port.old) vcpu }
    ensures { IfSome result (λ vcpu. IsUp (P.seen port.new) vcpu) }
{
    let usable = match write {
        None => reg.is_readable(),
        Some(_) => reg.is_writable(),
    };
    if !usable {
        return None;
    }
    let mut vcpu = vcpu;
    if icc_op(rt, port, &mut vcpu, reg, write) != answer {
        return None;
    }
    Some(vcpu)
}

/// Does one act. None where it finds something else.
fn perform<P: Port, R: Wait>(rt: &R, port: &mut P, vcpu: Loaded, act: Act) -> Option<Loaded>
    requires { IsUp (P.seen port.old) vcpu }
    ensures { IfSome result (λ vcpu. IsUp (P.seen port.new) vcpu) }
{
    if port.shape() != SHAPE {
        return None;
    }
    match act {
        Act::Rest => Some(vcpu),
        Act::Message(id @ 40..=42) => {
            message(port, &vcpu, id);
            Some(vcpu)
        }
        Act::Up(id @ 40..=42) => {
            wire(port, &vcpu, id, true);
            Some(vcpu)
        }
        Act::Down(id @ 40..=42) => {
            wire(port, &vcpu, id, false);
            Some(vcpu)
        }
        Act::Read(reg, value) => access(rt, port, vcpu, reg, None, Some(value)),
        Act::Write(reg, value) => access(rt, port, vcpu, reg, Some(value), None),
        Act::Stored(hcr, first, second) => {
            let again = move_again(port, vcpu);
            let is_so = again.regs.hcr == hcr && again.regs.lr[..2] == [first, second];
            is_so.then_some(again)
        }
        _ => None,
    }
}

/// Does so many acts on a PE with this many list registers: how many of them went as they are to. None where the vCPU may not
/// enter.
fn play<P: Port, R: Wait>(rt: &R, port: &mut P, lrs: u32, acts: &[Act]) -> Option<usize>
    requires { (P.seen port.old).number ≡ 0 }
{
    let mut vcpu = enter_told(port, lrs)?;
    for (done, act) in acts.iter().enumerate() {
        match perform(rt, port, vcpu, *act) {
            Some(next) => vcpu = next,
            None => return Some(done),
        }
    }
    leave(port, vcpu);
    Some(acts.len())
}

/// A row: whether SPI 40 is edge-triggered, the list registers of the PE, and what is done.
type Row = (bool, u32, [Act; 9]);

/// A row on a guest of its own: how many acts went as they are to.
fn outcome<R: Wait>(rt: &R, alloc: Global, row: &Row) -> Result<Option<usize>, AllocError> {
    let (edge, lrs, acts) = row;
    let scenario = scenario(alloc, *edge)?;
    if !scenario.is_good(alloc, Mode::Threads)? {
        return Ok(None);
    }
    let mut port = SeqPort::start(alloc, &scenario)?;
    Ok(play(rt, &mut port, *lrs, acts.as_slice()))
}

use Act::{Down, Message, Read, Rest, Stored, Up, Write};
use IccReg::{Ctlr, Dir, Eoir1, Hppir1, Iar1, Pmr, Rpr, Sgi1r};

/// The rows.
const ROWS: [Row; 14] = [
    // One list register for two interrupts.
    (
        true,
        1,
        [
            Message(40),
            Message(41),
            Read(Iar1, 40),
            Write(Eoir1, 40),
            Read(Iar1, 41),
            Rest,
            Rest,
            Rest,
            Rest,
        ],
    ),
    // What an entry stores, with and without a cut; of a level-sensitive interrupt.
    (
        true,
        1,
        [
            Message(40),
            Stored(0x91, 0x50a0_0000_0000_0028, 0),
            Message(41),
            Stored(0x99, 0x50a0_0000_0000_0028, 0),
            Rest,
            Rest,
            Rest,
            Rest,
            Rest,
        ],
    ),
    (
        false,
        1,
        [
            Up(40),
            Stored(0x91, 0x50a0_0200_0000_0028, 0),
            Rest,
            Rest,
            Rest,
            Rest,
            Rest,
            Rest,
            Rest,
        ],
    ),
    // Trap mode: two active interrupts and one list register; the end of one that is not at the interface.
    (
        true,
        1,
        [
            Message(40),
            Read(Iar1, 40),
            Message(42),
            Stored(0x5c91, 0, 0),
            Read(Iar1, 42),
            Read(Rpr, 0x20),
            Write(Eoir1, 42),
            Read(Rpr, 0xa0),
            Rest,
        ],
    ),
    (
        true,
        1,
        [
            Message(40),
            Read(Iar1, 40),
            Message(42),
            Read(Hppir1, 42),
            Read(Iar1, 42),
            Write(Eoir1, 42),
            Write(Eoir1, 40),
            Read(Rpr, 0xff),
            Read(Iar1, 1023),
        ],
    ),
    // The priority mask.
    (
        true,
        4,
        [
            Write(Pmr, 0xA0),
            Message(40),
            Read(Iar1, 1023),
            Read(Hppir1, 40),
            Write(Pmr, 0xA8),
            Read(Iar1, 40),
            Write(Pmr, 0xFF),
            Read(Pmr, 0xF8),
            Rest,
        ],
    ),
    // Two messages are one interrupt; one that comes while the first is active is another.
    (
        true,
        4,
        [
            Message(40),
            Message(40),
            Read(Iar1, 40),
            Write(Eoir1, 40),
            Read(Iar1, 1023),
            Rest,
            Rest,
            Rest,
            Rest,
        ],
    ),
    (
        true,
        1,
        [
            Message(40),
            Read(Iar1, 40),
            Message(40),
            Stored(0x91, 0xd0a0_0000_0000_0028, 0),
            Read(Iar1, 1023),
            Write(Eoir1, 40),
            Read(Iar1, 40),
            Rest,
            Rest,
        ],
    ),
    // A level-sensitive interrupt comes again until its wire is down.
    (
        false,
        4,
        [
            Up(40),
            Read(Iar1, 40),
            Write(Eoir1, 40),
            Read(Iar1, 40),
            Write(Eoir1, 40),
            Down(40),
            Read(Iar1, 1023),
            Rest,
            Rest,
        ],
    ),
    // SGIs to the other vCPU, to the vCPU itself, and to all but itself.
    (
        true,
        4,
        [
            Write(Sgi1r, 0x0500_0002),
            Read(Iar1, 1023),
            Write(Sgi1r, 0x0500_0001),
            Read(Iar1, 5),
            Write(Eoir1, 5),
            Write(Sgi1r, 0x0000_0100_0500_0000),
            Read(Iar1, 1023),
            Rest,
            Rest,
        ],
    ),
    // EOImode: an end of interrupt drops the priority alone, and DIR deactivates.
    (
        true,
        4,
        [
            Write(Ctlr, 2),
            Read(Ctlr, 0xc0402),
            Message(40),
            Read(Iar1, 40),
            Write(Eoir1, 40),
            Read(Rpr, 0xff),
            Message(40),
            Read(Iar1, 1023),
            Write(Dir, 40),
        ],
    ),
    (
        true,
        1,
        [
            Write(Ctlr, 2),
            Message(40),
            Read(Iar1, 40),
            Write(Eoir1, 40),
            Message(40),
            Write(Dir, 40),
            Read(Iar1, 40),
            Rest,
            Rest,
        ],
    ),
    // A cut beside an active interrupt whose end is to be seen.
    (
        true,
        2,
        [
            Message(40),
            Read(Iar1, 40),
            Message(40),
            Message(41),
            Message(42),
            Stored(0x99, 0x90a0_0200_0000_0028, 0x5020_0000_0000_002a),
            Rest,
            Rest,
            Rest,
        ],
    ),
    // The vCPU goes on where it was after it left.
    (
        true,
        4,
        [
            Message(40),
            Stored(0x91, 0x50a0_0000_0000_0028, 0),
            Read(Iar1, 40),
            Stored(0x91, 0x90a0_0000_0000_0028, 0),
            Write(Eoir1, 40),
            Stored(0x91, 0, 0),
            Rest,
            Rest,
            Rest,
        ],
    ),
];

#[test]
fn rows(rt: HostRuntime) -> Result<(), Fail> {
    for row in ROWS {
        assert_eq!(rt; outcome(&rt, rt.alloc(), &row)?, Some(9));
    }
    Ok(())
}
