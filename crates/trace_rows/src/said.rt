//! What events say, each by itself.
use crate::table::event_of;
use floor_calls::{Actor, DeviceOp, Frame, GuestOp, IccReg, Key, Kind, Touching};
use std::test::Fail;
use trace_read::{Act, Place, TraceCall};

/// vCPU 0 of the guest.
const VCPU_0: Actor = Actor::Vcpu { guest: 0, vcpu: 0 };

/// Device 1 of the guest.
const DEVICE_1: Actor = Actor::Device {
    guest: 0,
    device: 1,
};

/// Events, each with who acts and what happens.
#[rattlefmt::skip]
const SAID: [(&str, Actor, Act); 20] = [
    (r#"{"by":["v",0],"begin":{"icc":"EOIR1","write":"0x28"}}"#, VCPU_0,
        Act::Begin(TraceCall::Vcpu(GuestOp::Icc { reg: IccReg::Eoir1, write: Some(40) }))),
    (r#"{"by":["v",0],"begin":{"gicr":8,"of":1,"size":8}}"#, VCPU_0,
        Act::Begin(TraceCall::Vcpu(GuestOp::Mem { frame: Frame::Redist { vcpu: 1 }, offset: 8, size: 8, write: None }))),
    (r#"{"by":["v",0],"begin":{"gicd":2}}"#, VCPU_0,
        Act::Begin(TraceCall::Vcpu(GuestOp::Mem { frame: Frame::Dist, offset: 2, size: 4, write: None }))),
    (r#"{"by":["v",0],"begin":{"exit":true}}"#, VCPU_0, Act::Begin(TraceCall::Exit)),
    (r#"{"by":["d",1],"begin":{"wire":20,"up":true,"of":1}}"#, DEVICE_1,
        Act::Begin(TraceCall::Device(DeviceOp::Wire { key: Key::Private { vcpu: 1, id: 20 }, up: true }))),
    (r#"{"by":["d",1],"begin":{"msi":[8,3]}}"#, DEVICE_1,
        Act::Begin(TraceCall::Device(DeviceOp::Msi { device: 8, event: 3 }))),
    (r#"{"by":["v",0],"end":null}"#, VCPU_0, Act::End(None)),
    (r#"{"by":["v",0],"end":1023}"#, VCPU_0, Act::End(Some(1023))),
    (r#"{"by":["v",0],"reach":"v1:5"}"#, VCPU_0, Act::Reach(Key::Private { vcpu: 1, id: 5 })),
    (r#"{"by":["v",0],"leave":"4100"}"#, VCPU_0, Act::Leave(Key::Spi(4100))),
    (r#"{"by":["d",1],"raise":"8195"}"#, DEVICE_1, Act::Raise(Key::Lpi(8195))),
    (r#"{"by":["v",0],"cpu":["PMR",240,null]}"#, VCPU_0,
        Act::Cpu { reg: IccReg::Pmr, write: Some(240), answer: None }),
    (r#"{"by":["v",0],"touch":["40","read",["Routing"],1]}"#, VCPU_0,
        Act::Touch { key: Key::Spi(40), what: Touching::Read { kind: Kind::Routing }, answer: Some(1) }),
    (r#"{"by":["v",0],"touch":["40","write",["ClearActive",1],null]}"#, VCPU_0,
        Act::Touch { key: Key::Spi(40), what: Touching::Register { kind: Kind::ClearActive, value: 1 }, answer: None }),
    (r#"{"by":["v",0],"touch":["8195","map",[1,true,160],null]}"#, VCPU_0,
        Act::Touch { key: Key::Lpi(8195), what: Touching::MapLpi { target: 1, enabled: true, prio: 160 }, answer: None }),
    (r#"{"by":["v",0],"touch":["8195","retarget",[null],null]}"#, VCPU_0,
        Act::Touch { key: Key::Lpi(8195), what: Touching::Retarget { target: None }, answer: None }),
    (r#"{"by":["v",0],"read":["pendbaser:1",12]}"#, VCPU_0, Act::Read { place: Place::Pendbaser(1), value: 12 }),
    (r#"{"by":["v",0],"put":["ram:3",7]}"#, VCPU_0, Act::Put { place: Place::Ram(3), value: 7 }),
    (r#"{"by":["v",0],"ctlr_begin":2}"#, VCPU_0, Act::CtlrBegin { enables: 2 }),
    (r#"{"by":["v",0],"queue":[32,true]}"#, VCPU_0, Act::Queue { offset: 32, stalled: true }),
];

#[test]
fn says_who_does_what(rt: HostRuntime) -> Result<(), Fail> {
    for (text, by, act) in &SAID {
        let event = event_of(rt.alloc(), text)?;
        assert_eq!(rt; event.by, *by, "{text}");
        assert_eq!(rt; event.act, *act, "{text}");
    }
    Ok(())
}
