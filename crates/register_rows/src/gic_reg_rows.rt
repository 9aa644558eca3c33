//! What registers over interrupts read of one, and what writes make of it.
use floor_registers::{Group, GuestShape, Irq, Key, Kind, Route, read_part, write_part};

const SHAPE: GuestShape = GuestShape {
    vcpus: 2,
    spis: 32,
    espis: 0,
    devices: 1,
    lpis: 0,
    ram: 0,
};

const SPI: Key = Key::Spi(40);

const SGI: Key = Key::Private { vcpu: 1, id: 5 };

/// A level interrupt whose line is up and that is pended by software, for the affinity 1.
const LEVEL: Irq = Irq {
    prio: 0xA0,
    enabled: true,
    group: Group::G1,
    edge: false,
    line: true,
    rise: true,
    soft: true,
    act_by: None,
    holder: None,
    want: false,
    en0: false,
    en1: true,
    route: Route::Affinity(1),
};

#[test]
fn reads(rt: HostRuntime) {
    for (kind, value) in [
        (Kind::Group, 1),
        (Kind::ClearEnable, 1),
        (Kind::SetPending, 1),
        (Kind::SetActive, 0),
        (Kind::Priority, 0xA0),
        (Kind::Config, 0),
        (Kind::Routing, 1),
    ] {
        assert_eq!(rt; read_part(kind, &LEVEL), value, "of {kind:?}");
    }
    let far = Irq {
        route: Route::Affinity(0x1234_5678),
        ..LEVEL
    };
    assert_eq!(rt; read_part(Kind::Routing, &far), 0x12_0034_5678);
}

#[test]
fn writes_of_set_and_clear_registers(rt: HostRuntime) {
    assert_eq!(rt;
        write_part(Kind::Group, SPI, &LEVEL, 0, &SHAPE),
        Irq {
            group: Group::G0,
            ..LEVEL
        }
    );
    assert_eq!(rt; write_part(Kind::SetEnable, SPI, &LEVEL, 0, &SHAPE), LEVEL);
    assert_eq!(rt;
        write_part(Kind::ClearEnable, SPI, &LEVEL, 1, &SHAPE),
        Irq {
            enabled: false,
            ..LEVEL
        }
    );
    let cleared = write_part(Kind::ClearPending, SPI, &LEVEL, 1, &SHAPE);
    assert_eq!(rt;
        cleared,
        Irq {
            rise: false,
            soft: false,
            ..LEVEL
        }
    );
    assert_eq!(rt; read_part(Kind::ClearPending, &cleared), 1);
}

#[test]
fn isactiver_wants_a_target(rt: HostRuntime) {
    assert_eq!(rt;
        write_part(Kind::SetActive, SPI, &LEVEL, 1, &SHAPE),
        Irq {
            act_by: Some(1),
            ..LEVEL
        }
    );
    let nowhere = Irq {
        route: Route::Affinity(2),
        ..LEVEL
    };
    assert_eq!(rt;
        write_part(Kind::SetActive, SPI, &nowhere, 1, &SHAPE),
        nowhere
    );
}

#[test]
fn writes_of_fields(rt: HostRuntime) {
    assert_eq!(rt;
        write_part(Kind::Priority, SPI, &LEVEL, 0x5F, &SHAPE),
        Irq {
            prio: 0x58,
            ..LEVEL
        }
    );
    assert_eq!(rt;
        write_part(Kind::Config, SPI, &LEVEL, 3, &SHAPE),
        Irq {
            edge: true,
            ..LEVEL
        }
    );
    assert_eq!(rt;
        write_part(Kind::Routing, SPI, &LEVEL, 0x12_8034_5678, &SHAPE),
        Irq {
            route: Route::Affinity(0x1234_5678),
            ..LEVEL
        }
    );
    let sgi = Irq {
        edge: true,
        route: Route::Target(Some(1)),
        ..LEVEL
    };
    assert_eq!(rt; write_part(Kind::Config, SGI, &sgi, 0, &SHAPE), sgi);
}
