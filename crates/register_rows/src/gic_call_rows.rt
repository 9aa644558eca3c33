//! Which interrupts move to an interface and back, and how commands touch an LPI.
use floor_registers::{CpuRec, Group, GuestShape, Irq, Key, Kind, Route};
use gic_call::{Entry, Moved, Touching, may_reach, may_take};

const SPI: Key = Key::Spi(40);

const CPU: CpuRec = CpuRec {
    pmr: 0xF0,
    bpr0: 2,
    bpr1: 3,
    cbpr: false,
    eoimode: false,
    en0: false,
    en1: true,
    lpis: false,
    ap0: 0,
    ap1: 0,
};

/// An edge interrupt for vCPU 1 whose wire rose.
const PENDING: Irq = Irq {
    prio: 0xA0,
    enabled: true,
    group: Group::G1,
    edge: true,
    line: true,
    rise: true,
    soft: false,
    act_by: None,
    holder: None,
    want: false,
    en0: true,
    en1: true,
    route: Route::Affinity(1),
};

/// `PENDING`, active by vCPU 1 and risen again.
const ACTIVE: Irq = Irq {
    act_by: Some(1),
    ..PENDING
};

#[test]
fn which_vcpu_an_interrupt_may_reach(rt: HostRuntime) {
    let deaf = CpuRec { en1: false, ..CPU };
    for (irq, vcpu, cpu, may) in [
        (PENDING, 1, CPU, true),
        (PENDING, 0, CPU, false),
        (PENDING, 1, deaf, false),
        (ACTIVE, 1, deaf, true),
        (ACTIVE, 0, CPU, false),
    ] {
        assert_eq!(rt; may_reach(SPI, &irq, vcpu, &cpu), may, "of {irq:?}, {vcpu}");
    }
}

#[test]
fn an_active_interrupt_rises_again_and_leaves(rt: HostRuntime) {
    let there = Moved::reached(&ACTIVE);
    let active = Entry {
        pending: false,
        active: true,
        rise: false,
        soft: false,
    };
    assert_eq!(rt; there.entry, active);
    assert!(rt; may_take(SPI, &there, 1, &CPU));
    let again = there.taken();
    assert_eq!(rt;
        again.entry,
        Entry {
            pending: true,
            rise: true,
            ..active
        }
    );
    assert_eq!(rt;
        again.irq,
        Irq {
            rise: false,
            ..ACTIVE
        }
    );
    assert!(rt; !may_take(SPI, &again, 1, &CPU));
    assert_eq!(rt; again.left(1), ACTIVE);
}

const SHAPE: GuestShape = GuestShape {
    vcpus: 2,
    spis: 32,
    espis: 0,
    devices: 1,
    lpis: 8,
    ram: 0,
};

const LPI: Key = Key::Lpi(8193);

/// An LPI for vCPU 0 that an MSI pended.
const PENDING_LPI: Irq = Irq {
    prio: 0x40,
    enabled: true,
    group: Group::G1,
    edge: true,
    line: false,
    rise: false,
    soft: true,
    act_by: None,
    holder: None,
    want: false,
    en0: false,
    en1: true,
    route: Route::Target(Some(0)),
};

#[test]
fn commands_touch_an_lpi(rt: HostRuntime) {
    let moved = Irq {
        route: Route::Target(Some(1)),
        ..PENDING_LPI
    };
    let mapped = Irq {
        prio: 0xF8,
        enabled: false,
        ..moved
    };
    let discarded = Irq {
        prio: 0,
        enabled: false,
        soft: false,
        route: Route::Target(None),
        ..PENDING_LPI
    };
    let cleared = Irq {
        soft: false,
        ..PENDING_LPI
    };
    for (touch, after) in [
        (
            Touching::MapLpi {
                target: 1,
                enabled: false,
                prio: 0xF8,
            },
            mapped,
        ),
        (Touching::Retarget { target: Some(1) }, moved),
        (Touching::Forget, discarded),
        (
            Touching::Register {
                kind: Kind::ClearPending,
                value: 1,
            },
            cleared,
        ),
    ] {
        assert_eq!(rt;
            touch.applied(LPI, &PENDING_LPI, &SHAPE),
            after,
            "by {touch:?}"
        );
    }
}
