//! What is read of a scenario, and what is shown of a refusal.
use crate::made::{by_device, on_frame, on_register};
use scn_read::{
    DeviceOp, Fault, Frame, GuestOp, GuestShape, IccReg, Key, Mode, PeOp, Preset, ReadRefusal,
    Scenario, Step, read,
};
use serde_json::Value;
use std::test::Fail;

/// One interrupt from its message to its end.
const FIRST: &str =
    r#"{"pes":1,"lrs":4,"guests":[{"vcpus":1,"spis":32,"on":true,"irqs":[{"id":40}]}],
    "steps":[{"dev":[0,0],"message":40},{"vcpu":[0,0],"icc":"IAR1"},
    {"vcpu":[0,0],"icc":"EOIR1","write":40},{"vcpu":[0,0],"icc":"IAR1"}]}"#;
/// The scenario `FIRST` with numbers as hexadecimal texts.
const FIRST_IN_HEX: &str =
    r#"{"pes":"0x1","lrs":"0x0000000000000004","guests":[{"vcpus":"0x01","spis":"0x20",
    "on":true,"irqs":[{"id":"0x28","prio":"0xa0"}]}],
    "steps":[{"dev":["0x0",0],"message":"0x28"},{"vcpu":[0,"0x0"],"icc":"IAR1"},
    {"vcpu":[0,0],"icc":"EOIR1","write":"0x28"},{"vcpu":[0,0],"icc":"IAR1"}]}"#;
/// One step of each form.
const FORMS: &str = r#"{"pes":2,"guests":[{"vcpus":2,"espis":32,"lpis":16,"ram":64}],"steps":[
    {"vcpu":[0,1],"icc":"SGI1R","write":"0x0000010005000000"},
    {"vcpu":[0,0],"gicd":"0x6140","size":8,"write":1},
    {"vcpu":[0,0],"gicr":"0x70","of":1,"size":8},
    {"vcpu":[0,0],"gits":"0x88"},
    {"vcpu":[0,0],"ram":3,"size":1,"write":"0xA1"},
    {"dev":[0,0],"message":4100},
    {"dev":[0,0],"wire":40,"up":true},
    {"dev":[0,0],"wire":27,"up":true,"vcpu":1},
    {"dev":[0,0],"msi":[8,3]},
    {"pe":1,"exit":true},
    {"pe":1,"enter":[0,1]},
    {"pe":0,"lrs":true}]}"#;

#[test]
fn reads_the_first_guest(rt: HostRuntime) -> Result<(), Fail> {
    for text in [FIRST, FIRST_IN_HEX] {
        let value = Value::from_str(rt.alloc(), text)?;
        let scenario: Scenario = read(rt.alloc(), &value, Mode::Threads)?;
        assert_eq!(rt; (scenario.pes, scenario.lrs), (1, 4));
        assert_eq!(rt; scenario.guests.len(), 1);
        for guest in scenario.guests.iter() {
            let shape = GuestShape {
                vcpus: 1,
                spis: 32,
                espis: 0,
                devices: 1,
                lpis: 0,
                ram: 0,
            };
            assert_eq!(rt; (guest.shape, guest.on), (shape, true));
            let preset = Preset {
                id: 40,
                prio: 160,
                edge: true,
                group: 1,
                to: Some(0),
                vcpu: None,
            };
            assert_eq!(rt; guest.presets.as_slice(), [preset].as_slice());
        }
    }
    Ok(())
}

#[test]
fn reads_the_first_steps(rt: HostRuntime) -> Result<(), Fail> {
    for text in [FIRST, FIRST_IN_HEX] {
        let value = Value::from_str(rt.alloc(), text)?;
        let scenario: Scenario = read(rt.alloc(), &value, Mode::Threads)?;
        let steps = [
            by_device(0, DeviceOp::Message { spi: 40 }),
            on_register(0, IccReg::Iar1, None),
            on_register(0, IccReg::Eoir1, Some(40)),
            on_register(0, IccReg::Iar1, None),
        ];
        assert_eq!(rt; scenario.steps.as_slice(), steps.as_slice());
    }
    Ok(())
}

#[test]
fn reads_each_form(rt: HostRuntime) -> Result<(), Fail> {
    let value = Value::from_str(rt.alloc(), FORMS)?;
    let scenario: Scenario = read(rt.alloc(), &value, Mode::Schedule)?;
    let ppi = Key::Private { vcpu: 1, id: 27 };
    let enter = PeOp::Enter { guest: 0, vcpu: 1 };
    let steps = [
        on_register(1, IccReg::Sgi1r, Some(0x0000010005000000)),
        on_frame(0, Frame::Dist, 0x6140, 8, Some(1)),
        on_frame(0, Frame::Redist { vcpu: 1 }, 0x70, 8, None),
        on_frame(0, Frame::Its, 0x88, 4, None),
        on_frame(0, Frame::Ram, 3, 1, Some(0xA1)),
        by_device(0, DeviceOp::Message { spi: 4100 }),
        by_device(
            0,
            DeviceOp::Wire {
                key: Key::Spi(40),
                up: true,
            },
        ),
        by_device(0, DeviceOp::Wire { key: ppi, up: true }),
        by_device(
            0,
            DeviceOp::Msi {
                device: 8,
                event: 3,
            },
        ),
        Step::Pe {
            pe: 1,
            op: PeOp::Exit,
        },
        Step::Pe { pe: 1, op: enter },
        Step::Pe {
            pe: 0,
            op: PeOp::Lrs,
        },
    ];
    assert_eq!(rt; scenario.steps.as_slice(), steps.as_slice());
    Ok(())
}

#[test]
fn reads_private_presets(rt: HostRuntime) -> Result<(), Fail> {
    let text = r#"{"guests":[{"vcpus":2,"irqs":[{"id":27,"vcpu":1,"edge":false,"prio":8,"group":0},
        {"id":5,"vcpu":0},{"id":40,"to":1}]}],"steps":[]}"#;
    let value = Value::from_str(rt.alloc(), text)?;
    let scenario: Scenario = read(rt.alloc(), &value, Mode::Schedule)?;
    let sgi = Preset {
        id: 5,
        prio: 160,
        edge: true,
        group: 1,
        to: None,
        vcpu: Some(0),
    };
    let ppi = Preset {
        id: 27,
        prio: 8,
        edge: false,
        group: 0,
        to: None,
        vcpu: Some(1),
    };
    let spi = Preset {
        id: 40,
        to: Some(1),
        vcpu: None,
        ..sgi
    };
    assert_eq!(rt; scenario.guests.len(), 1);
    for guest in scenario.guests.iter() {
        assert_eq!(rt; guest.presets.as_slice(), [ppi, sgi, spi].as_slice());
    }
    Ok(())
}

#[test]
fn shows_refusals(rt: HostRuntime) -> Result<(), Fail> {
    let fault = ReadRefusal::Bad(Fault { code: 9, step: 3 });
    assert_eq!(rt;
        format!(in rt.alloc(); "{fault}")?.as_str(),
        "code 9 step 3"
    );
    let refusal = ReadRefusal::NoMemory;
    assert_eq!(rt;
        format!(in rt.alloc(); "{refusal}")?.as_str(),
        "out of memory"
    );
    Ok(())
}
