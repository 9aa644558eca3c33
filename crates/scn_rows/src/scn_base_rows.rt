//! The text of a fault, who stands where, and which scenarios are good.
use crate::made::{by_device, on_frame, on_register};
use scn_base::{
    DeviceOp, Fault, Frame, GuestShape, GuestSpec, Guests, IccReg, Key, Mode, PeOp, PresetList,
    Scenario, Step, Steps, VcpuName, move_pes, opening_pes,
};
use std::alloc::{AllocError, Global};
use std::test::Fail;

/// Two vCPUs, two devices and a word of memory.
const SHAPE: GuestShape = GuestShape {
    vcpus: 2,
    spis: 32,
    espis: 0,
    devices: 2,
    lpis: 0,
    ram: 8,
};

/// A guest with its numbers, and no presets.
fn guest(alloc: Global, vcpus: u32) -> GuestSpec {
    GuestSpec {
        shape: GuestShape { vcpus, ..SHAPE },
        on: false,
        presets: PresetList::new(alloc),
    }
}

/// One PE, and a guest of two vCPUs and two devices that makes these steps.
fn scenario(alloc: Global, made: &[Step]) -> Result<Scenario, AllocError> {
    let mut guests = Guests::new(alloc);
    guests.push(guest(alloc, 2))?;
    let mut steps = Steps::new(alloc);
    for step in made {
        steps.push(*step)?;
    }
    Ok(Scenario {
        pes: 1,
        lrs: 4,
        guests,
        steps,
    })
}

/// A vCPU reads IAR1.
fn read(vcpu: u32) -> Step {
    on_register(vcpu, IccReg::Iar1, None)
}

/// VCPU 0 loads eight bytes of the memory.
fn load(offset: u32) -> Step {
    on_frame(0, Frame::Ram, offset, 8, None)
}

/// A device moves the wire of interrupt 40.
fn wire(device: u32, up: bool) -> Step {
    let key = Key::Spi(40);
    by_device(device, DeviceOp::Wire { key, up })
}

/// Something is done to PE 0.
fn on_pe(op: PeOp) -> Step {
    Step::Pe { pe: 0, op }
}

#[test]
fn shows_fault(rt: HostRuntime) -> Result<(), Fail> {
    let fault = Fault { code: 9, step: 3 };
    assert_eq!(rt;
        format!(in rt.alloc(); "{fault}")?.as_str(),
        "code 9 step 3"
    );
    Ok(())
}

#[test]
fn places_vcpus(rt: HostRuntime) -> Result<(), Fail> {
    let guests = [guest(rt.alloc(), 2), guest(rt.alloc(), 1)];
    let name = |guest, vcpu| Some(VcpuName { guest, vcpu });
    let two = opening_pes(rt.alloc(), 2, &guests)?;
    assert_eq!(rt; two.as_slice(), [name(0, 0), name(0, 1)].as_slice());
    let mut four = opening_pes(rt.alloc(), 4, &guests)?;
    let opening = [name(0, 0), name(0, 1), name(1, 0), None];
    assert_eq!(rt; four.as_slice(), opening.as_slice());
    move_pes(&on_pe(PeOp::Exit), &mut four);
    let enter = PeOp::Enter { guest: 0, vcpu: 0 };
    move_pes(&Step::Pe { pe: 3, op: enter }, &mut four);
    move_pes(&on_pe(PeOp::Lrs), &mut four);
    move_pes(&Step::Pe { pe: 4, op: enter }, &mut four);
    let moved = [None, name(0, 1), name(1, 0), name(0, 0)];
    assert_eq!(rt; four.as_slice(), moved.as_slice());
    Ok(())
}

#[test]
fn tells_good_scenarios(rt: HostRuntime) -> Result<(), Fail> {
    let enter = on_pe(PeOp::Enter { guest: 0, vcpu: 1 });
    let exit = on_pe(PeOp::Exit);
    // Steps, and whether they are good to a schedule and on threads.
    let rows: [(&[Step], bool, bool); 10] = [
        (&[], true, true),
        (&[read(0), load(0)], true, true),
        (&[read(0), read(1)], false, true),
        (&[load(8)], false, false),
        (&[exit, enter, read(1)], true, false),
        (&[exit, exit], false, false),
        (&[enter], false, false),
        (&[wire(0, true), wire(0, false), wire(0, true)], true, true),
        (&[wire(0, true), wire(0, true)], false, false),
        (&[wire(0, true), wire(1, false)], false, false),
    ];
    for (steps, scheduled, threaded) in rows {
        let scenario = scenario(rt.alloc(), steps)?;
        assert_eq!(rt; scenario.is_good(rt.alloc(), Mode::Schedule)?, scheduled);
        assert_eq!(rt; scenario.is_good(rt.alloc(), Mode::Threads)?, threaded);
    }
    Ok(())
}
