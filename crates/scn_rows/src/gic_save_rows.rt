//! Images byte by byte.
ghost use Rattle.std.specs.Prelude.{◌≡◌, IfOk, length};

use crate::made::{by_device, on_frame, on_register};
use gic_save::image;
use scn_saved::{
    ColEnd, ColEnds, CpuState, CpuStates, DevEnd, DevEnds, DeviceOp, EvtEnd, EvtEnds, Frame,
    GuestShape, GuestSpec, GuestState, Guests, IccReg, ItsState, Key, ListOf, PeOp, Pes, Preset,
    PresetList, RamState, RamStates, RecState, RecStates, RedistState, RedistStates, Saved,
    Scenario, StateList, Step, Steps, VcpuName,
};
use std::alloc::{AllocError, Global};
use std::test::Fail;

/// A message for 40 was acknowledged; the end of the interrupt and another read are left.
const ACTIVE: &str = concat!(
    r#"{"done":2,"guests":[{"col":[],"cpu":[[240,2,3,0,0,0,1,0,0,1048576]],"#,
    r#""dev":[],"evt":[],"gicd":3,"irqs":[[40,160,1,1,0,null]],"its":null,"#,
    r#""on":true,"ram":[],"rec":[["40",1,1,160,1,0,0,0,0,0,1,1,null]],"#,
    r#""redist":[[0,0]],"shape":[1,32,0,1,0,0]}],"lrs":4,"on_pe":[[0,0]],"#,
    r#""pes":1,"reads":1,"steps":[{"icc":"EOIR1","vcpu":[0,0],"write":40},"#,
    r#"{"icc":"IAR1","vcpu":[0,0]}],"version":1}"#
);

/// An LPI is pending, a PPI and a line are up, and a step of each form is left.
const PENDING: &str = concat!(
    r#"{"done":19,"guests":[{"col":[[1,1]],"cpu":[[240,2,3,0,0,0,1,1,0,0]],"#,
    r#""dev":[[8,5]],"evt":[[8,3,8195,1]],"gicd":3,"irqs":[],"#,
    r#""its":[1,9223372036854779904,128,128,0,0,74027918874902528,290200700988686336],"#,
    r#""on":true,"ram":[[1536,161]],"#,
    r#""rec":[["v0:27",1,1,160,0,1,1,0,null,null,1,1,0],"#,
    r#"["8195",1,1,160,1,0,0,1,null,1,1,1,null]],"#,
    r#""redist":[[12301,4611686018427453440]],"shape":[2,32,0,1,16,65536]}],"#,
    r#""lrs":4,"on_pe":[null,[0,1]],"pes":2,"reads":0,"steps":["#,
    r#"{"gicd":8,"size":4,"vcpu":[0,1]},"#,
    r#"{"gicr":120,"of":1,"size":8,"vcpu":[0,1],"write":5},"#,
    r#"{"gits":144,"size":8,"vcpu":[0,1]},"#,
    r#"{"ram":4096,"size":1,"vcpu":[0,1],"write":18446744073709551615},"#,
    r#"{"dev":[0,0],"message":40},"#,
    r#"{"dev":[0,0],"up":true,"wire":41},"#,
    r#"{"dev":[0,0],"up":false,"vcpu":0,"wire":27},"#,
    r#"{"dev":[0,0],"msi":[8,3]},"#,
    r#"{"enter":[0,0],"pe":0},{"exit":true,"pe":1},{"lrs":true,"pe":1}],"version":1}"#
);

/// An interface with PMR 0xF0 and IGRPEN1, with EnableLPIs and active levels of group 1.
fn cpu(lpis: bool, ap1: u32) -> CpuState {
    CpuState {
        pmr: 0xF0,
        bpr0: 2,
        bpr1: 3,
        cbpr: false,
        eoimode: false,
        en0: false,
        en1: true,
        lpis,
        ap0: 0,
        ap1,
    }
}

/// An interrupt of group 1 at priority 0xA0 that is enabled and idle.
fn idle(key: Key) -> RecState {
    RecState {
        key,
        enabled: true,
        group: 1,
        prio: 0xA0,
        edge: true,
        line: false,
        rise: false,
        soft: false,
        act: None,
        route: None,
        en0: true,
        en1: true,
        mover: None,
    }
}

/// The elements as a list.
fn list<T: Copy + Drop>(alloc: Global, elements: &[T]) -> Result<ListOf<T>, AllocError> {
    let mut list = ListOf::new(alloc);
    for element in elements {
        list.push(*element)?;
    }
    Ok(list)
}

/// A run of one guest on two PEs or one.
fn saved(
    alloc: Global,
    done: u32,
    reads: u32,
    guest: GuestSpec,
    state: GuestState,
    on_pe: &[Option<VcpuName>],
    steps: &[Step],
) -> Result<Saved, AllocError>
    ensures { IfOk result (λ saved. length saved.state ≡ length saved.scenario.guests) }
{
    let mut guests = Guests::new(alloc);
    guests.push(guest)?;
    let mut states = StateList::new(alloc);
    states.push(state)?;
    let steps: Steps = list(alloc, steps)?;
    let scenario = Scenario {
        pes: u32::try_from(on_pe.len()).unwrap_or(0),
        lrs: 4,
        guests,
        steps,
    };
    let on_pe: Pes = list(alloc, on_pe)?;
    Ok(Saved {
        scenario,
        done,
        reads,
        on_pe,
        state: states,
    })
}

/// A guest whose interrupt 40 is active.
fn active(alloc: Global) -> Result<(GuestSpec, GuestState), AllocError> {
    let preset = Preset {
        id: 40,
        prio: 0xA0,
        edge: true,
        group: 1,
        to: Some(0),
        vcpu: None,
    };
    let presets: PresetList = list(alloc, &[preset])?;
    let shape = GuestShape {
        vcpus: 1,
        spis: 32,
        espis: 0,
        devices: 1,
        lpis: 0,
        ram: 0,
    };
    let guest = GuestSpec {
        shape,
        on: true,
        presets,
    };
    let rec = RecState {
        act: Some(0),
        route: Some(0),
        ..idle(Key::Spi(40))
    };
    let redist = RedistState {
        propbaser: 0,
        pendbaser: 0,
    };
    let cpu: CpuStates = list(alloc, &[cpu(false, 0x10_0000)])?;
    let rec: RecStates = list(alloc, &[rec])?;
    let redist: RedistStates = list(alloc, &[redist])?;
    let state = GuestState {
        gicd: 3,
        cpu,
        rec,
        redist,
        its: None,
        dev: DevEnds::new(alloc),
        evt: EvtEnds::new(alloc),
        col: ColEnds::new(alloc),
        ram: RamStates::new(alloc),
    };
    Ok((guest, state))
}

/// A guest with LPIs, of which one is pending, and a PPI whose line is up.
fn pending(alloc: Global) -> Result<(GuestSpec, GuestState), AllocError> {
    let shape = GuestShape {
        vcpus: 2,
        spis: 32,
        espis: 0,
        devices: 1,
        lpis: 16,
        ram: 65536,
    };
    let guest = GuestSpec {
        shape,
        on: true,
        presets: PresetList::new(alloc),
    };
    let ppi = RecState {
        edge: false,
        line: true,
        rise: true,
        mover: Some(0),
        ..idle(Key::Private { vcpu: 0, id: 27 })
    };
    let lpi = RecState {
        soft: true,
        route: Some(1),
        ..idle(Key::Lpi(8195))
    };
    let redist = RedistState {
        propbaser: 12301,
        pendbaser: 0x4000_0000_0001_0000,
    };
    let its = ItsState {
        enabled: true,
        cbaser: 0x8000_0000_0000_1000,
        cwriter: 128,
        offset: 128,
        stalled: false,
        fault: 0,
        baser0: 0x0107_0000_0000_0000,
        baser1: 0x0407_0000_0000_0000,
    };
    let event = EvtEnd {
        device: 8,
        event: 3,
        id: 8195,
        icid: 1,
    };
    let word = RamState {
        index: 1536,
        word: 0xA1,
    };
    let cpu: CpuStates = list(alloc, &[cpu(true, 0)])?;
    let rec: RecStates = list(alloc, &[ppi, lpi])?;
    let redist: RedistStates = list(alloc, &[redist])?;
    let dev: DevEnds = list(alloc, &[DevEnd { device: 8, bits: 5 }])?;
    let evt: EvtEnds = list(alloc, &[event])?;
    let col: ColEnds = list(alloc, &[ColEnd { icid: 1, vcpu: 1 }])?;
    let ram: RamStates = list(alloc, &[word])?;
    let state = GuestState {
        gicd: 3,
        cpu,
        rec,
        redist,
        its: Some(its),
        dev,
        evt,
        col,
        ram,
    };
    Ok((guest, state))
}

#[test]
fn writes_an_active_interrupt(rt: HostRuntime) -> Result<(), Fail> {
    let alloc = rt.alloc();
    let (guest, state) = active(alloc)?;
    let on_pe = [Some(VcpuName { guest: 0, vcpu: 0 })];
    let steps = [
        on_register(0, IccReg::Eoir1, Some(40)),
        on_register(0, IccReg::Iar1, None),
    ];
    let saved = saved(alloc, 2, 1, guest, state, &on_pe, &steps)?;
    assert_eq!(rt; image(alloc, &saved)?.as_slice(), ACTIVE.as_bytes());
    Ok(())
}

#[test]
fn writes_each_kind(rt: HostRuntime) -> Result<(), Fail> {
    let alloc = rt.alloc();
    let (guest, state) = pending(alloc)?;
    let ppi = Key::Private { vcpu: 0, id: 27 };
    let enter = PeOp::Enter { guest: 0, vcpu: 0 };
    let steps = [
        on_frame(1, Frame::Dist, 8, 4, None),
        on_frame(1, Frame::Redist { vcpu: 1 }, 120, 8, Some(5)),
        on_frame(1, Frame::Its, 144, 8, None),
        on_frame(1, Frame::Ram, 4096, 1, Some(u64::MAX)),
        by_device(0, DeviceOp::Message { spi: 40 }),
        by_device(
            0,
            DeviceOp::Wire {
                key: Key::Spi(41),
                up: true,
            },
        ),
        by_device(
            0,
            DeviceOp::Wire {
                key: ppi,
                up: false,
            },
        ),
        by_device(
            0,
            DeviceOp::Msi {
                device: 8,
                event: 3,
            },
        ),
        Step::Pe { pe: 0, op: enter },
        Step::Pe {
            pe: 1,
            op: PeOp::Exit,
        },
        Step::Pe {
            pe: 1,
            op: PeOp::Lrs,
        },
    ];
    let on_pe = [None, Some(VcpuName { guest: 0, vcpu: 1 })];
    let saved = saved(alloc, 19, 0, guest, state, &on_pe, &steps)?;
    assert_eq!(rt; image(alloc, &saved)?.as_slice(), PENDING.as_bytes());
    Ok(())
}
