//! How guests open, and their plain words.
use floor_registers::{Group, GuestShape, Key, ListOf, Route, place_of};
use gic_open::{
    GuestSpec, PlainWord, Preset, cpus, irqs, opening_cpu, opening_enables, place_of_plain,
    plain_at, plain_count, plains,
};
use std::test::Fail;

/// Two vCPUs, both kinds of SPIs and two words of memory.
const SHAPE: GuestShape = GuestShape {
    vcpus: 2,
    spis: 32,
    espis: 32,
    devices: 1,
    lpis: 0,
    ram: 16,
};

/// SGI 5 of vCPU 1.
const SGI: Preset = Preset {
    id: 5,
    prio: 160,
    edge: true,
    group: 1,
    to: None,
    vcpu: Some(1),
};

/// An extended SPI for vCPU 1.
const ESPI: Preset = Preset {
    id: 4100,
    prio: 32,
    edge: false,
    group: 0,
    to: Some(1),
    vcpu: None,
};

#[test]
fn opens_with_presets(rt: HostRuntime) -> Result<(), Fail> {
    let mut presets = ListOf::new(rt.alloc());
    presets.push(SGI)?;
    presets.push(Preset { prio: 8, ..ESPI })?;
    presets.push(ESPI)?;
    let guest = GuestSpec {
        shape: SHAPE,
        on: true,
        presets,
    };
    assert!(rt; guest.is_good());
    let irqs = irqs(rt.alloc(), &guest)?;
    assert_eq!(rt; irqs.len(), 128);
    let sgi = irqs.as_slice()[place_of(Key::Private { vcpu: 1, id: 5 }, &SHAPE)];
    assert_eq!(rt; (sgi.enabled, sgi.prio, sgi.group), (true, 160, Group::G1));
    assert_eq!(rt; (sgi.edge, sgi.route), (true, Route::Target(Some(1))));
    let espi = irqs.as_slice()[place_of(Key::Spi(4100), &SHAPE)];
    assert_eq!(rt;
        (espi.enabled, espi.prio, espi.group),
        (true, 32, Group::G0)
    );
    assert_eq!(rt; (espi.edge, espi.route), (false, Route::Affinity(1)));
    let spi = irqs.as_slice()[place_of(Key::Spi(36), &SHAPE)];
    assert_eq!(rt; (spi.enabled, spi.prio, spi.group), (false, 0, Group::G0));
    assert_eq!(rt; (spi.en0, spi.en1, spi.edge), (true, true, false));
    let cpus = cpus(rt.alloc(), &guest)?;
    assert_eq!(rt; cpus.len(), 2);
    for cpu in cpus.iter() {
        assert_eq!(rt; (cpu.pmr, cpu.bpr0, cpu.bpr1), (0xF0, 2, 3));
        assert_eq!(rt; (cpu.en0, cpu.en1, cpu.lpis), (false, true, false));
    }
    assert_eq!(rt;
        (opening_cpu(false).pmr, opening_cpu(false).en1),
        (0, false)
    );
    assert_eq!(rt; (opening_enables(true), opening_enables(false)), (3, 0));
    Ok(())
}

#[test]
fn numbers_plain_words(rt: HostRuntime) -> Result<(), Fail> {
    let words = [
        PlainWord::Ram { index: 0 },
        PlainWord::Ram { index: 1 },
        PlainWord::Propbaser { vcpu: 0 },
        PlainWord::Pendbaser { vcpu: 0 },
        PlainWord::Propbaser { vcpu: 1 },
        PlainWord::Pendbaser { vcpu: 1 },
        PlainWord::ItsCtlr,
        PlainWord::Cbaser,
        PlainWord::Cwriter,
        PlainWord::Baser0,
        PlainWord::Baser1,
        PlainWord::Fault,
    ];
    assert_eq!(rt; plain_count(&SHAPE), words.len());
    for (place, word) in words.iter().enumerate() {
        assert_eq!(rt; plain_at(place, &SHAPE), *word);
    }
    assert_eq!(rt; place_of_plain(PlainWord::Pendbaser { vcpu: 1 }, &SHAPE), 5);
    assert_eq!(rt; place_of_plain(PlainWord::Fault, &SHAPE), 11);
    let opened = plains(rt.alloc(), &SHAPE)?;
    assert_eq!(rt; opened.len(), 12);
    assert!(rt; opened.iter().all(|word| *word == 0));
    Ok(())
}
