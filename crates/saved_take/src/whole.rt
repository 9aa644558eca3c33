//! All that is saved of a guest.
ghost use Rattle.std.specs.Prelude.{◌≡◌, ◌≤◌, IfOk, length};
ghost use Rattle.saved_guest.specs.IdealGuests.Calls.{IsGoodGuest};
ghost use Rattle.saved_guest.specs.IdealGuests.Words.{interrupt_count};
ghost use Rattle.saved_guest.specs.IdealGuests.Sound.{IsSound};
ghost use Rattle.saved_take.specs.Taken.{taken_of};

use crate::rec::recs;
use crate::registers::{cols, cpus, devs, evts, gicd, its, rams, redists};
use saved_guest::{GuestSpec, GuestState, IdealGuest, MovedWire, NoMemory, irqs};
use std::alloc::Global;

/// What is saved of a guest in a state: each interrupt that is not as the guest opened, or whose wire a device has moved; the
/// registers of its CPU interfaces, its redistributors and its ITS; what is mapped; and each word of memory that is not 0.
///
/// `wires` has, by the place of the interrupt, which device moved each wire, at least for the guest's own. The number of a
/// fault is saved only where the queue is stalled. `NoMemory` where memory is refused.
pub fn taken(
    alloc: Global,
    guest: &GuestSpec,
    wires: &[Option<MovedWire>],
    state: &IdealGuest,
) -> Result<GuestState, NoMemory>
    requires good { IsGoodGuest guest.now }
    requires sound { IsSound state.now }
    requires shape { state.now.shape ≡ guest.now.shape }
    requires wires { interrupt_count state.now.shape ≤ length wires.now }
    ensures { IfOk result (λ taken. taken ≡ taken_of guest.now wires.now state.now) }
{
    let opened = irqs(alloc, guest)?;
    let tables = &state.tables;
    Ok(GuestState {
        gicd: gicd(state.enables),
        cpu: cpus(alloc, state.cpus.as_slice())?,
        rec: recs(alloc, opened.as_slice(), wires, state)?,
        redist: redists(alloc, state)?,
        its: its(state),
        dev: devs(alloc, tables.devices(alloc)?.as_slice())?,
        evt: evts(alloc, tables.events(alloc)?.as_slice())?,
        col: cols(alloc, tables.collections(alloc)?.as_slice())?,
        ram: rams(alloc, state)?,
    })
}
