//! The machine of `gic_vm` for C, and its images of `vm_saved`: a static library whose functions take any numbers, and a handle that C holds.
#![tactic(auto)]

ghost use Rattle.std.specs.Prelude.{◌≡◌, ◌≢◌, ◌⊎◌, true, is_some, pos, None, if◌then◌else◌};
ghost use Rattle.gic_c.specs.Answer.{errno_of, status_of, shown};
ghost use Rattle.gic_c.specs.Handle.{board_of, asked, left, told};
ghost use Rattle.gic_c.specs.Open.{CanOpen, IsOpened};
ghost use Rattle.gic_c.specs.Board.{forgotten};
ghost use Rattle.gic_c.specs.Calls.{is_flag, sysreg_reply, after_register, guest_reply, after_guest, wire_step, message_step, msi_step, reset_reply, after_reset, vcpu_reply, after_vcpu, lines_status};
ghost use Rattle.gic_c.specs.Mmio.{IsMmio};
ghost use Rattle.gic_c.specs.Fetch.{feed_status, after_feed};
ghost use Rattle.gic_c.specs.Save.{IsSave, IsRestore};
ghost use Rattle.gic_c.specs.declared.answer.Refusal.TheVariants.{Invalid, NoMemory};

mod access;
mod answer;
mod board;
mod bytes;
mod device;
mod feed;
mod handle;
mod loose;
mod mmio;
mod open;
mod save;
mod slot;
#[cfg(test)]
mod tests;

use answer::{Refusal, RvDone};
use handle::RvMachine;
use open::RvSpec;
use save::deliver;
use std::alloc::Global;

/// The version of what C sees: a library of another one has other structs.
const ABI: u32 = 1;

/// The version of what C sees.
#[unsafe(no_mangle)]
pub extern "C" fn rv_abi() -> u32
    ensures { result ≡ 1 }
{
    ABI
}

/// Opens a machine in a closed handle. 0; -EINVAL where the handle is open, or the machine is none; -ENOMEM. Of the other calls `rv_save` and `rv_restore` alone
/// ask for memory.
#[unsafe(no_mangle)]
pub extern "C" fn rv_create(alloc: Global, spec: &RvSpec, machine: &mut RvMachine) -> i32
    ensures opened { result ≡ pos 0 → CanOpen machine.old spec.now × IsOpened machine.new spec.now }
    ensures invalid { result ≡ errno_of Invalid → ¬ CanOpen machine.old spec.now }
    ensures memory { result ≡ errno_of NoMemory → CanOpen machine.old spec.now }
    ensures refused { result ≢ pos 0 → board_of machine.new ≡ board_of machine.old }
    ensures answers { (result ≡ pos 0) ⊎ (result ≡ errno_of Invalid) ⊎ (result ≡ errno_of NoMemory) }
{
    machine.create(alloc, spec)
}

/// Ends the machine of a handle, which is closed from then on. 0; -EINVAL where it was closed before.
#[unsafe(no_mangle)]
pub extern "C" fn rv_destroy(alloc: Global, machine: &mut RvMachine) -> i32
    ensures status { result ≡ (if is_some (board_of machine.old) then pos 0 else errno_of Invalid) }
    ensures closed { board_of machine.new ≡ None }
{
    machine.destroy(alloc)
}

/// A vCPU reads (`is_write` 0) or writes (1) `size` bytes at a guest physical address. 0; 1 where it wants bytes of the guest's memory first, by
/// `rv_feed`, and then the same call again; -EINVAL where an argument is none; -ENOENT outside of the frames.
#[unsafe(no_mangle)]
pub extern "C" fn rv_mmio(
    alloc: Global,
    machine: &mut RvMachine,
    vcpu: u32,
    address: u64,
    size: u32,
    is_write: u32,
    value: u64,
    done: &mut RvDone,
) -> i32
    ensures { IsMmio vcpu address size is_write value (board_of machine.old) (board_of machine.new) result done.new }
{
    let Some(mut board) = machine.take(alloc) else {
        return done.show(Err(Refusal::Invalid));
    };
    let reply = board.mmio(vcpu, address, size, is_write, value);
    machine.put(board);
    done.show(reply)
}

/// Takes the bytes of the guest's memory for which the last call asked, which was `rv_mmio`. 0; -EINVAL where it asked for none, or for another number.
#[unsafe(no_mangle)]
pub extern "C" fn rv_feed(alloc: Global, machine: &mut RvMachine, bytes: &[u8]) -> i32
    ensures status { result ≡ told (feed_status bytes.now) machine.old }
    ensures machine { board_of machine.new ≡ left (after_feed bytes.now) machine.old }
{
    let Some(mut board) = machine.take(alloc) else {
        return Refusal::Invalid.errno();
    };
    let status = board.feed(bytes);
    machine.put(board);
    status
}

/// A vCPU reads or writes a system register, named by op0:op1:CRn:CRm:op2. 0; -EINVAL where an argument is none; -ENOENT where the register is not the
/// GIC's; -EACCES where the access takes an exception (UNDEFINED).
#[unsafe(no_mangle)]
pub extern "C" fn rv_sysreg(
    alloc: Global,
    machine: &mut RvMachine,
    vcpu: u32,
    encoding: u32,
    is_write: u32,
    value: u64,
    done: &mut RvDone,
) -> i32
    ensures status { result ≡ status_of (asked (sysreg_reply vcpu encoding is_write value) machine.old) }
    ensures done { done.new ≡ shown (asked (sysreg_reply vcpu encoding is_write value) machine.old) }
    ensures machine { board_of machine.new ≡ left (after_register vcpu encoding is_write value) machine.old }
{
    let Some(mut board) = machine.take(alloc) else {
        return done.show(Err(Refusal::Invalid));
    };
    let reply = board.sysreg(vcpu, encoding, is_write, value);
    machine.put(board);
    done.show(reply)
}

/// The wire of an SPI, or of a PPI of a vCPU, has a level: `up` is 0 or 1. 0; -EINVAL where `up` is neither; -ENOENT where there is no such wire.
#[unsafe(no_mangle)]
pub extern "C" fn rv_wire(
    alloc: Global,
    machine: &mut RvMachine,
    intid: u32,
    vcpu: u32,
    up: u32,
    done: &mut RvDone,
) -> i32
    ensures status { result ≡ status_of (asked (guest_reply (is_flag up) (wire_step intid vcpu up)) machine.old) }
    ensures done { done.new ≡ shown (asked (guest_reply (is_flag up) (wire_step intid vcpu up)) machine.old) }
    ensures machine { board_of machine.new ≡ left (after_guest (is_flag up) (wire_step intid vcpu up)) machine.old }
{
    let Some(mut board) = machine.take(alloc) else {
        return done.show(Err(Refusal::Invalid));
    };
    let reply = board.wire(intid, vcpu, up);
    machine.put(board);
    done.show(reply)
}

/// A device writes an INTID to GICD_SETSPI_NSR. 0; -EINVAL where the handle is closed; -ENOENT where there is no such SPI.
#[unsafe(no_mangle)]
pub extern "C" fn rv_message(
    alloc: Global,
    machine: &mut RvMachine,
    spi: u32,
    done: &mut RvDone,
) -> i32
    ensures status { result ≡ status_of (asked (guest_reply true (message_step spi)) machine.old) }
    ensures done { done.new ≡ shown (asked (guest_reply true (message_step spi)) machine.old) }
    ensures machine { board_of machine.new ≡ left (after_guest true (message_step spi)) machine.old }
{
    let Some(mut board) = machine.take(alloc) else {
        return done.show(Err(Refusal::Invalid));
    };
    let reply = board.message(spi);
    machine.put(board);
    done.show(reply)
}

/// A device writes an EventID to GITS_TRANSLATER under its DeviceID. 0; -EINVAL where the handle is closed; -ENOENT where there is no ITS.
#[unsafe(no_mangle)]
pub extern "C" fn rv_msi(
    alloc: Global,
    machine: &mut RvMachine,
    device: u32,
    event: u32,
    done: &mut RvDone,
) -> i32
    ensures status { result ≡ status_of (asked (guest_reply true (msi_step device event)) machine.old) }
    ensures done { done.new ≡ shown (asked (guest_reply true (msi_step device event)) machine.old) }
    ensures machine { board_of machine.new ≡ left (after_guest true (msi_step device event)) machine.old }
{
    let Some(mut board) = machine.take(alloc) else {
        return done.show(Err(Refusal::Invalid));
    };
    let reply = board.msi(device, event);
    machine.put(board);
    done.show(reply)
}

/// The interrupt lines of a vCPU: IRQ is worth 1, FIQ 2. -EINVAL where there is no such vCPU, or the handle is closed.
#[unsafe(no_mangle)]
pub extern "C" fn rv_lines(alloc: Global, machine: &mut RvMachine, vcpu: u32) -> i32
    ensures lines { result ≡ told (lines_status vcpu) machine.old }
    ensures machine { board_of machine.new ≡ left forgotten machine.old }
{
    let Some(mut board) = machine.take(alloc) else {
        return Refusal::Invalid.errno();
    };
    let lines = board.lines(vcpu);
    machine.put(board);
    lines
}

/// The machine is as it opened, with every wire down. 0; -EINVAL where the handle is closed.
#[unsafe(no_mangle)]
pub extern "C" fn rv_reset(alloc: Global, machine: &mut RvMachine, done: &mut RvDone) -> i32
    ensures status { result ≡ status_of (asked reset_reply machine.old) }
    ensures done { done.new ≡ shown (asked reset_reply machine.old) }
    ensures machine { board_of machine.new ≡ left after_reset machine.old }
{
    let Some(mut board) = machine.take(alloc) else {
        return done.show(Err(Refusal::Invalid));
    };
    let reply = board.reset();
    machine.put(board);
    done.show(reply)
}

/// The CPU interface of a vCPU is as it opened. 0; -EINVAL where there is no such vCPU, or the handle is closed.
#[unsafe(no_mangle)]
pub extern "C" fn rv_reset_vcpu(
    alloc: Global,
    machine: &mut RvMachine,
    vcpu: u32,
    done: &mut RvDone,
) -> i32
    ensures status { result ≡ status_of (asked (vcpu_reply vcpu) machine.old) }
    ensures done { done.new ≡ shown (asked (vcpu_reply vcpu) machine.old) }
    ensures machine { board_of machine.new ≡ left (after_vcpu vcpu) machine.old }
{
    let Some(mut board) = machine.take(alloc) else {
        return done.show(Err(Refusal::Invalid));
    };
    let reply = board.reset_vcpu(vcpu);
    machine.put(board);
    done.show(reply)
}

/// Writes the machine's image, one line of JSON, into `room`, and how many bytes it has into `needed`, which is 0 where there is none. 0; -ERANGE where it has more
/// bytes than there is room, which stays as it was; -EINVAL where the handle is closed; -EDOM where the state of the machine is none that an image tells; -ENOMEM.
#[unsafe(no_mangle)]
pub extern "C" fn rv_save(
    alloc: Global,
    machine: &mut RvMachine,
    room: &mut [u8],
    needed: &mut u64,
) -> i32
    ensures saved { IsSave (board_of machine.old) room.old room.new needed.new result }
    ensures machine { board_of machine.new ≡ left forgotten machine.old }
{
    let Some(mut board) = machine.take(alloc) else {
        return deliver(Err(Refusal::Invalid), room, needed);
    };
    board.forget();
    let image = board.image(alloc);
    machine.put(board);
    deliver(image, room, needed)
}

/// The machine is what it was where `rv_save` wrote these bytes of it, or of another one with the same numbers. 0; -EINVAL where the bytes are no such image, or the
/// handle is closed; -ENOMEM. Where it is refused the machine stays as it was.
#[unsafe(no_mangle)]
pub extern "C" fn rv_restore(
    alloc: Global,
    machine: &mut RvMachine,
    bytes: &[u8],
    done: &mut RvDone,
) -> i32
    ensures { IsRestore bytes.now (board_of machine.old) (board_of machine.new) result done.new }
{
    let Some(mut board) = machine.take(alloc) else {
        return done.show(Err(Refusal::Invalid));
    };
    let reply = board.restore(alloc, bytes);
    machine.put(board);
    done.show(reply)
}
