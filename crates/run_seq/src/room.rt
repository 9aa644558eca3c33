//! The lists that list registers are shown in.
ghost use Rattle.std.specs.Prelude.{◌≡◌, ◌+◌, ◌<◌, ◌≤◌, All, IfOk, IsTrue, if◌then◌else◌, length, replicate};
ghost use Rattle.law_ends_agree.specs.Words.{MAX_LIST_REGISTERS};
ghost use Rattle.law_one_thread_is_eager.specs.PePlace.Place.{IsRoom};
ghost use Rattle.run_seq.specs.Room.{is_shown as is_shown_by, HasRoomFor, RoomsFor};

use law_ends_agree::{LrList, PeOp, Step};
use std::alloc::{AllocError, Global};

/// ICH_HCR, and as many list registers as a PE can have.
const WORDS: usize = 17;

/// Whether a step shows the list registers of a PE.
fn is_shown(step: &Step) -> bool
    ensures { result ≡ is_shown_by step.now }
{
    matches!(step, Step::Pe { op: PeOp::Lrs, .. })
}

/// A list for what each of some steps shows. An error where memory for them is refused.
pub(crate) fn rooms_for(alloc: Global, steps: &[Step]) -> Result<Vec<Vec<u64>>, AllocError>
    ensures { IfOk result (λ rooms. RoomsFor steps.now rooms.items) }
{
    let mut rooms = Vec::new(alloc);
    for step in steps {
        if is_shown(step) {
            rooms.push(Vec::with_capacity(alloc, WORDS)?)?;
        }
    }
    Ok(rooms)
}

/// A list for what a step shows, if it shows anything: then there is one.
pub(crate) fn take_room(rooms: &mut Vec<Vec<u64>>, step: &Step) -> Option<Vec<u64>>
    requires each { All IsRoom rooms.old.items }
    requires some { IsTrue (is_shown_by step.now) → 0 < length rooms.old.items }
    ensures room { HasRoomFor step.now result }
    ensures each { All IsRoom rooms.new.items }
    ensures count { (if is_shown_by step.now then 1 else 0) + length rooms.new.items ≡ length rooms.old.items }
{
    if is_shown(step) { rooms.pop() } else { None }
}

/// ICH_HCR and so many list registers, all zeros.
pub(crate) fn zeros(room: Vec<u64>, lrs: u32) -> LrList
    requires lrs { lrs ≤ MAX_LIST_REGISTERS }
    requires room { IsRoom room }
    ensures { result ≡ replicate (lrs + 1) 0 }
{
    let mut list = room;
    list.resize(lrs as usize + 1, 0).unwrap();
    LrList::from(list)
}
