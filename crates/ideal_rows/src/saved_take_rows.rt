//! What is saved of guests as they open.
ghost use Rattle.std.specs.Prelude.{◌≡◌, IfOk, length};
ghost use Rattle.saved_guest.specs.IdealGuests.Words.{IsShape, interrupt_count as count_of};

use saved_guest::{
    GuestShape, GuestSpec, IdealGuest, ItsState, Key, MovedWire, Preset, PresetList, RecState,
    interrupt_count,
};
use saved_take::taken;
use std::alloc::{AllocError, Global};
use std::test::Fail;

/// A guest that is on, with a level-triggered interrupt 40, and so many LPIs.
fn guest(alloc: Global, lpis: u32) -> Result<GuestSpec, AllocError> {
    let preset = Preset {
        id: 40,
        prio: 0xA0,
        edge: false,
        group: 1,
        to: Some(0),
        vcpu: None,
    };
    let mut presets = PresetList::new(alloc);
    presets.push(preset)?;
    let shape = GuestShape {
        vcpus: 1,
        spis: 32,
        espis: 0,
        devices: 1,
        lpis,
        ram: 16,
    };
    Ok(GuestSpec {
        shape,
        on: true,
        presets,
    })
}

/// The wires of a guest, none of which was moved.
fn still(alloc: Global, shape: &GuestShape) -> Result<Vec<Option<MovedWire>>, AllocError>
    requires { IsShape shape.now }
    ensures { IfOk result (λ wires. length wires.items ≡ count_of shape.now) }
{
    vec![in alloc; None; interrupt_count(shape)]
}

#[test]
fn an_opening_has_no_records(rt: HostRuntime) -> Result<(), Fail> {
    let alloc = rt.alloc();
    let guest = guest(alloc, 0)?;
    assert!(rt; guest.is_good());
    let state = IdealGuest::open(alloc, &guest)?;
    let wires = still(alloc, &guest.shape)?;
    let saved = taken(alloc, &guest, wires.as_slice(), &state)?;
    assert_eq!(rt; saved.gicd, 3);
    assert_eq!(rt; saved.rec.len(), 0);
    assert_eq!(rt; saved.ram.len(), 0);
    assert!(rt; saved.its.is_none());
    Ok(())
}

#[test]
fn a_mover_alone(rt: HostRuntime) -> Result<(), Fail> {
    let alloc = rt.alloc();
    let guest = guest(alloc, 0)?;
    assert!(rt; guest.is_good());
    let state = IdealGuest::open(alloc, &guest)?;
    let mut wires = still(alloc, &guest.shape)?;
    if let Some(wire) = wires.last_mut() {
        *wire = Some(MovedWire {
            device: 0,
            up: false,
        });
    }
    let saved = taken(alloc, &guest, wires.as_slice(), &state)?;
    let moved = RecState {
        key: Key::Spi(63),
        enabled: false,
        group: 0,
        prio: 0,
        edge: false,
        line: false,
        rise: false,
        soft: false,
        act: None,
        route: Some(0),
        en0: true,
        en1: true,
        mover: Some(0),
    };
    assert_eq!(rt; saved.rec.as_slice(), [moved].as_slice());
    Ok(())
}

#[test]
fn registers_of_an_its(rt: HostRuntime) -> Result<(), Fail> {
    let alloc = rt.alloc();
    let guest = guest(alloc, 16)?;
    assert!(rt; guest.is_good());
    let state = IdealGuest::open(alloc, &guest)?;
    let wires = still(alloc, &guest.shape)?;
    let saved = taken(alloc, &guest, wires.as_slice(), &state)?;
    let its = ItsState {
        enabled: false,
        cbaser: 0,
        cwriter: 0,
        offset: 0,
        stalled: false,
        fault: 0,
        baser0: 0x0107_0000_0000_0000,
        baser1: 0x0407_0000_0000_0000,
    };
    assert_eq!(rt; saved.its, Some(its));
    Ok(())
}
