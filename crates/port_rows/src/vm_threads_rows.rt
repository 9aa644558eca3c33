//! A guest with one vCPU, its timer and two SPIs, step by step: the lines of the vCPU after each, on a PE with one list register.
ghost use Rattle.std.specs.Prelude.{◌≡◌, IfSome};
ghost use Rattle.port_seq.specs.Ports.{told};
ghost use Rattle.pe_icc.specs.PeLoop.Stay.{IsUp};

use dev_port::message;
use pe_icc::{Lines, Loaded, enter, icc_op, leave, lines};
use port_rest::{one_guest, spi};
use port_seq::{
    CorePort as Port, GuestPort, GuestShape, IccReg, Key, Mode, Preset, Scenario, SeqPort, key_of,
};
use std::alloc::{AllocError, Global};
use std::sync::Wait;
use std::test::Fail;
use vm_threads::{Timer, can_call, rest};

/// A vCPU, SPIs 32 to 63, and a device.
const SHAPE: GuestShape = GuestShape {
    vcpus: 1,
    spis: 32,
    espis: 0,
    devices: 1,
    lpis: 0,
    ram: 0,
};

/// The PPI of the timer.
const TIMER: u32 = 27;

/// List registers of the PE: with one, an active interrupt and one that preempts it do not fit, and the vCPU is in trap mode.
const LIST_REGISTERS: u32 = 1;

/// What is done.
#[derive(Clone, Copy)]
enum Act {
    /// The line of the timer moves.
    Timer(bool),
    /// The device sends a message of an SPI.
    Message(u32),
    /// The vCPU reads a register of its CPU interface, and finds this.
    Read(IccReg, u64),
    /// It writes a value to one.
    Write(IccReg, u64),
}

/// Each act, and whether IRQ is asserted after it.
const ROWS: [(Act, bool); 10] = [
    (Act::Timer(true), true),
    (Act::Timer(true), true),
    (Act::Read(IccReg::Iar1, 27), false),
    // From here on in trap mode.
    (Act::Message(42), true),
    (Act::Write(IccReg::Pmr, 0x20), false),
    (Act::Write(IccReg::Pmr, 0xF0), true),
    (Act::Read(IccReg::Iar1, 42), false),
    (Act::Timer(false), false),
    (Act::Write(IccReg::Eoir1, 42), false),
    (Act::Write(IccReg::Eoir1, 27), false),
];

/// The guest opens on; its timer's PPI is level-sensitive, and SPI 42 preempts it.
fn scenario(alloc: Global) -> Result<Scenario, AllocError> {
    let timer = Preset {
        id: TIMER,
        prio: 0xA0,
        edge: false,
        group: 1,
        to: None,
        vcpu: Some(0),
    };
    one_guest(alloc, SHAPE, true, &[timer, spi(42, 0x20, true, 0)])
}

/// Tells an actor of the guest: the vCPU, or the device after it. None where there is none.
fn tell(guest: &mut GuestPort, actor: u32) -> Option<()>
    ensures { (told guest.new).number ≡ (told guest.old).number }
{
    if guest.shape() != SHAPE || actor > 1 {
        return None;
    }
    guest.set_actor(actor);
    Some(())
}

/// A device moves the line of a timer. None where it may not.
fn move_timer<P: Port>(port: &mut P, timer: &mut Timer, up: bool) -> Option<()>
    requires { (P.seen port.old).number ≡ 0 }
    ensures { IfSome result (λ done. (P.seen port.new).number ≡ 0) }
{
    if !can_call(port) || timer.vcpu >= port.shape().vcpus {
        return None;
    }
    timer.set(port, up);
    Some(())
}

/// A device sends a message of an SPI. None where it may not.
fn send<P: Port>(port: &mut P, spi: u32) -> Option<()>
    requires { (P.seen port.old).number ≡ 0 }
    ensures { IfSome result (λ done. (P.seen port.new).number ≡ 0) }
{
    if !can_call(port) || key_of(spi, 0, &port.shape()) != Some(Key::Spi(spi)) {
        return None;
    }
    message(port, spi);
    Some(())
}

/// A vCPU accesses a register. None where that cannot be, or reads something else.
fn access<P: Port, R: Wait>(
    rt: &R,
    port: &mut P,
    vcpu: Loaded,
    reg: IccReg,
    write: Option<u64>,
    answer: Option<u64>,
) -> Option<Loaded>
    requires { IsUp (P.seen port.old) vcpu }
    ensures up { IfSome result (λ vcpu. IsUp (P.seen port.new) vcpu) }
    ensures guest { IfSome result (λ vcpu. (P.seen port.new).number ≡ (P.seen port.old).number) }
{
    let usable = match write {
        None => reg.is_readable(),
        Some(_) => reg.is_writable(),
    };
    if !usable {
        return None;
    }
    let mut vcpu = vcpu;
    if icc_op(rt, port, &mut vcpu, reg, write) != answer {
        return None;
    }
    Some(vcpu)
}

/// A vCPU does what an act has for it. None where that cannot be, or reads something else.
fn operate<P: Port, R: Wait>(rt: &R, port: &mut P, vcpu: Loaded, act: Act) -> Option<Loaded>
    requires { IsUp (P.seen port.old) vcpu }
    ensures up { IfSome result (λ vcpu. IsUp (P.seen port.new) vcpu) }
    ensures guest { IfSome result (λ vcpu. (P.seen port.new).number ≡ (P.seen port.old).number) }
{
    match act {
        Act::Read(reg, value) => access(rt, port, vcpu, reg, None, Some(value)),
        Act::Write(reg, value) => access(rt, port, vcpu, reg, Some(value), None),
        Act::Timer(_) | Act::Message(_) => Some(vcpu),
    }
}

/// The vCPU enters a PE, does what it has to do there, and tells its lines before it leaves. None where that cannot be, or reads
/// something else.
fn stay<P: Port, R: Wait>(rt: &R, port: &mut P, act: Act) -> Option<Lines>
    requires { (P.seen port.old).number ≡ 0 }
    ensures { IfSome result (λ lines. (P.seen port.new).number ≡ 0) }
{
    let vcpu = rest(port, 0)?;
    let entered = enter(port, vcpu, LIST_REGISTERS);
    let loaded = operate(rt, port, entered, act)?;
    let lines = lines(port, &loaded);
    leave(port, loaded);
    Some(lines)
}

/// A device does what an act has for it. None where it may not.
fn receive<P: Port>(port: &mut P, timer: &mut Timer, act: Act) -> Option<()>
    requires { (P.seen port.old).number ≡ 0 }
    ensures { IfSome result (λ done. (P.seen port.new).number ≡ 0) }
{
    match act {
        Act::Timer(up) => move_timer(port, timer, up),
        Act::Message(spi) => send(port, spi),
        Act::Read(..) | Act::Write(..) => Some(()),
    }
}

/// Does an act: the lines of the vCPU after it.
fn perform<R: Wait>(rt: &R, guest: &mut GuestPort, timer: &mut Timer, act: Act) -> Option<Lines>
    requires { (told guest.old).number ≡ 0 }
    ensures { IfSome result (λ lines. (told guest.new).number ≡ 0) }
{
    tell(guest, 1)?;
    receive(guest, timer, act)?;
    tell(guest, 0)?;
    stay(rt, guest, act)
}

/// The number of the first row after which the lines are not as they are to be.
fn first_other<R: Wait>(rt: &R, guest: &mut GuestPort) -> Option<usize>
    requires { (told guest.old).number ≡ 0 }
{
    let mut timer = Timer::new(0, TIMER);
    for (number, (act, irq)) in ROWS.iter().enumerate() {
        let wanted = Lines {
            irq: *irq,
            fiq: false,
        };
        let Some(lines) = perform(rt, guest, &mut timer, *act) else {
            return Some(number);
        };
        if lines != wanted {
            return Some(number);
        }
    }
    None
}

#[test]
fn lines_follow(rt: HostRuntime) -> Result<(), Fail> {
    let scenario = scenario(rt.alloc())?;
    assert!(rt; scenario.is_good(rt.alloc(), Mode::Threads)?);
    let mut port = SeqPort::start(rt.alloc(), &scenario)?;
    assert_eq!(rt; first_other(&rt, port.current_mut()), None);
    Ok(())
}
