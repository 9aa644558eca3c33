//! Who has a thread in a run: PEs, each with a seat at the shelf of vCPUs, and devices.
ghost use Rattle.std.specs.Prelude.{◌≡◌, ◌<◌, ◌≤◌, [], false, true, All, IfOk, OnOk, length, map, nat_lt};
ghost use Rattle.std.specs.List.{range_with_len};
ghost use Rattle.thr_trip.specs.PortTable.All.{told_words, told_root};
ghost use Rattle.thr_trip.specs.PortTable.Told.{AreRoots};
ghost use Rattle.thr_trip.specs.Device.{IsDevice};
ghost use Rattle.thr_trip.specs.Seat.{IsFreeSeat};
ghost use Rattle.thr_trip.specs.Told.{device_told};
ghost use Rattle.thr_trip.specs.VcpuShelf.Shelf.{shelf_told, seat_told};
ghost use Rattle.thr_trip.specs.VcpuShelf.Told.{SawAllDone};
ghost use Rattle.thr_cast.specs.Crew.{HaveWorkers, IsOver, devices_in, has_pe, joined_all, pe_numbers};

use std::alloc::AllocError;
use thr_trip::{
    DeviceRun, Naming, PeRun, RootSeat, SharedWords, Shelf, ShelfSeat, Trip, Worker,
    port_table_join as join,
};

/// What has a thread in a run: a PE, or a device.
pub type Hand<'a, J> = Worker<Trip<'a, J>, DeviceRun<'a, J>>;

/// So many PEs come, numbered from 0, each with a seat at the shelf, before any other worker. An error where memory is refused.
pub fn add_pes<'a, J: Naming + Send>(
    shelf: &Shelf<Trip<'a, J>>,
    seat: &mut ShelfSeat<Trip<'a, J>>,
    pes: u32,
    workers: &mut Vec<Hand<'a, J>>,
) -> Result<(), AllocError>
    requires free { IsFreeSeat (shelf_told shelf.now) (seat_told seat.old) }
    requires none { workers.old.items ≡ [] }
    ensures same { seat_told seat.new ≡ seat_told seat.old }
    ensures workers { OnOk result (HaveWorkers (shelf_told shelf.now) workers.new.items [] (nat_lt 0 pes)) }
    ensures numbers { OnOk result (pe_numbers workers.new.items ≡ range_with_len 0 pes) }
{
    for pe in 0..pes {
        let own = thr_trip::vcpu_shelf_split(shelf, seat);
        workers.push(Worker::Pe(PeRun::new(pe, own)))?;
    }
    Ok(())
}

/// The devices come, which have done nothing yet, after the workers that are there. An error where memory is refused.
pub fn add_devices<'a, J: Naming + Send>(
    devices: Vec<DeviceRun<'a, J>>,
    workers: &mut Vec<Hand<'a, J>>,
) -> Result<(), AllocError>
    requires fresh { All (λ device. device.done ≡ false) devices.items }
    ensures workers { (shelf : _) (pes : _) → HaveWorkers shelf workers.old.items [] pes → OnOk result (HaveWorkers shelf workers.new.items (map device_told devices.entry.items) pes) }
    ensures numbers { OnOk result (pe_numbers workers.new.items ≡ pe_numbers workers.old.items) }
{
    for device in devices {
        workers.push(Worker::Device(device))?;
    }
    Ok(())
}

/// After the run the seats of PEs and the ports of devices are joined again. It takes no memory.
pub fn gather<'a, J: Naming + Send>(
    words: &'a SharedWords,
    root: &mut RootSeat,
    shelf: &Shelf<Trip<'a, J>>,
    seat: &mut ShelfSeat<Trip<'a, J>>,
    workers: Vec<Hand<'a, J>>,
)
    requires words { told_words words.now ≡ J.words }
    requires roots { AreRoots J.words (told_root root.old) }
    requires free { IsFreeSeat (shelf_told shelf.now) (seat_told seat.old) }
    requires over { All (IsOver (shelf_told shelf.now)) workers.items }
    ensures root { told_root root.new ≡ joined_all (map (λ device. device.seen) (devices_in workers.entry.items)) (told_root root.old) }
    ensures roots { AreRoots J.words (told_root root.new) }
    ensures devices { All (IsDevice J.words J.steps) (devices_in workers.entry.items) }
    ensures free { IsFreeSeat (shelf_told shelf.now) (seat_told seat.new) }
    ensures saw { has_pe workers.entry.items ≡ true → SawAllDone (shelf_told shelf.now) (seat_told seat.new) }
{
    for worker in workers {
        match worker {
            Worker::Pe(pe) => thr_trip::vcpu_shelf_join(shelf, seat, pe.into_seat()),
            Worker::Device(device) => join(words, root, device.into_port()),
        }
    }
}
