//! vCPUs that are done, as they come back from the shelf.
ghost use Rattle.std.specs.Prelude.{◌≡◌, true, All, IfOk, is_some, map};
ghost use Rattle.thr_trip.specs.PortTable.All.{told_words, told_root};
ghost use Rattle.thr_trip.specs.PortTable.Told.{AreRoots};
ghost use Rattle.thr_trip.specs.Trip.{IsTrip};
ghost use Rattle.thr_cast.specs.Back.{BroughtBack, trips_in};
ghost use Rattle.thr_cast.specs.Crew.{joined_all};

use crate::answers::Heard;
use guest_end::{CpuRecs, ListOf, NoMemory, VcpuName};
use std::alloc::Global;
use thr_trip::{Naming, RootSeat, SharedWords, Trip, port_table_join as join};

/// What the vCPUs of a run brought back.
#[derive(Drop)]
pub struct Back {
    /// What each of them was answered.
    pub heard: ListOf<Heard>,
    /// The records of their CPU interfaces.
    pub cpus: CpuRecs,
}

/// What the vCPUs bring back that lie in these slots, and their ports are joined again. An error where memory is refused.
pub fn take_apart<'a, J: Naming>(
    alloc: Global,
    words: &'a SharedWords,
    root: &mut RootSeat,
    slots: Vec<Option<Trip<'a, J>>>,
) -> Result<Back, NoMemory>
    requires words { told_words words.now ≡ J.words }
    requires roots { AreRoots J.words (told_root root.old) }
    requires there { All (λ slot. is_some slot ≡ true) slots.items }
    ensures root { IfOk result (λ _. told_root root.new ≡ joined_all (map (λ trip. trip.seen) (trips_in slots.entry.items)) (told_root root.old)) }
    ensures roots { IfOk result (λ _. AreRoots J.words (told_root root.new)) }
    ensures trips { IfOk result (λ _. All (IsTrip J.words J.lrs J.steps) (trips_in slots.entry.items)) }
    ensures back { IfOk result (BroughtBack (trips_in slots.entry.items)) }
{
    let mut heard = ListOf::new(alloc);
    let mut cpus = CpuRecs::new(alloc);
    for slot in slots {
        let Some(trip) = slot else { unreachable!() };
        let (vcpu, answers, port) = trip.into_parts();
        join(words, root, port);
        let name = VcpuName {
            guest: vcpu.guest,
            vcpu: vcpu.vcpu,
        };
        let answers = ListOf::from(answers);
        heard.push(Heard { name, answers })?;
        cpus.push(vcpu.cpu)?;
    }
    Ok(Back { heard, cpus })
}
