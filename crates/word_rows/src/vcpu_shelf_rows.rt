//! Travellers that count their turns, in one thread and in several.
ghost use Rattle.std.specs.Prelude.{◌≡◌, ◌<◌, ◌≤◌, ◌^◌, false, IfOk, None, length};
ghost use Rattle.std.specs.Thread.{IsSync};
ghost use Rattle.vcpu_shelf.specs.Answer.{AreInPlace};
ghost use Rattle.vcpu_shelf.specs.Shelf.{shelf_told, seat_told};
ghost use Rattle.vcpu_shelf.specs.Told.{IsOf, SawAllDone};

use std::alloc::{AllocError, Global};
use std::sync::Wait;
use std::test::Fail;
use std::thread;
use std::thread::Threads;
use vcpu_shelf::{Shelf, ShelfSeat, Taken, Traveller, close, join, of, put, split, take};

/// It is done after as many turns as are due, which it borrows.
#[derive(Drop)]
struct Counter<'a> {
    place: u32,
    turns: u32,
    due: &'a u32,
    ghost within: { turns ≤ due.now },
}

impl<'a> Traveller for Counter<'a> {
    ghost use Rattle.std.specs.Prelude.{nat_le};

    ghost place = { λ counter. counter.place };

    ghost next = { λ counter. counter.turns };

    ghost done = { λ counter. nat_le counter.due.now counter.turns };

    fn place(&self) -> u32 {
        self.place
    }

    fn next(&self) -> u32 {
        self.turns
    }

    fn done(&self) -> bool {
        *self.due <= self.turns
    }
}

/// A traveller that takes turns. What threads do is generic in it, so that it may borrow.
trait Rider: Traveller {
    fn turn(&mut self)
        requires { Self.done self.old ≡ false }
        ensures { Self.place self.new ≡ Self.place self.old };
}

impl<'a> Rider for Counter<'a> {
    fn turn(&mut self) {
        self.turns = self.turns.saturating_add(1);
    }
}

/// A counter for each of these numbers of turns, in their order.
fn counters<'a>(alloc: Global, dues: &'a [u32]) -> Result<Vec<Counter<'a>>, AllocError>
    requires { length dues.now < 2 ^ 32 }
    ensures count { IfOk result (λ all. length all.items ≡ length dues.now) }
    ensures placed { IfOk result (λ all. AreInPlace (λ (counter : Counter). counter.place) all.items) }
{
    let mut all = Vec::new(alloc);
    for place in 0..dues.len() {
        all.push(Counter {
            place: place as u32,
            turns: 0,
            due: &dues[place],
        })?;
    }
    Ok(all)
}

/// Takes travellers and puts them back after one turn each, until all are done.
fn work<T: Rider, R: Wait>(rt: &R, shelf: &Shelf<T>, mut seat: ShelfSeat<T>) -> ShelfSeat<T>
    requires of { IsOf (shelf_told shelf.now) (seat_told seat) }
    requires none { (seat_told seat).out ≡ None }
    ensures of { IsOf (shelf_told shelf.now) (seat_told result) }
    ensures none { (seat_told result).out ≡ None }
    ensures all_done { SawAllDone (shelf_told shelf.now) (seat_told result) }
{
    for _ in rt.forever() {
        match take(shelf, &mut seat) {
            Taken::Vcpu(mut rider) => {
                rider.turn();
                put(shelf, &mut seat, rider);
            }
            Taken::Busy => thread::yield_now(),
            Taken::AllDone => return seat,
        }
    }
    unreachable!()
}

/// Two threads do, each with a seat.
fn work_two<T: Rider, R: Threads + Wait + Sync>(
    rt: &R,
    shelf: &Shelf<T>,
    one: ShelfSeat<T>,
    other: ShelfSeat<T>,
) -> (ShelfSeat<T>, ShelfSeat<T>)
    requires one { IsOf (shelf_told shelf.now) (seat_told one) × ((seat_told one).out ≡ None) }
    requires other { IsOf (shelf_told shelf.now) (seat_told other) × ((seat_told other).out ≡ None) }
    ensures one { IsOf (shelf_told shelf.now) (seat_told result.0) × ((seat_told result.0).out ≡ None) × SawAllDone (shelf_told shelf.now) (seat_told result.0) }
    ensures other { IsOf (shelf_told shelf.now) (seat_told result.1) × ((seat_told result.1).out ≡ None) × SawAllDone (shelf_told shelf.now) (seat_told result.1) }
{
    thread::join(
        rt,
        move || -> ShelfSeat<T>
            requires { IsOf (shelf_told shelf.now) (seat_told one) × ((seat_told one).out ≡ None) × IsSync R.row }
            ensures { IsOf (shelf_told shelf.entry.now) (seat_told result) × ((seat_told result).out ≡ None) × SawAllDone (shelf_told shelf.entry.now) (seat_told result) }
        { work(rt, shelf, one) },
        move || -> ShelfSeat<T>
            requires { IsOf (shelf_told shelf.now) (seat_told other) × ((seat_told other).out ≡ None) × IsSync R.row }
            ensures { IsOf (shelf_told shelf.entry.now) (seat_told result) × ((seat_told result).out ≡ None) × SawAllDone (shelf_told shelf.entry.now) (seat_told result) }
        { work(rt, shelf, other) },
    )
}

/// The place and the turns of each counter that is there.
fn turns(alloc: Global, all: Vec<Option<Counter<'_>>>) -> Result<Vec<(u32, u32)>, AllocError> {
    let mut turns = Vec::new(alloc);
    for counter in all {
        if let Some(counter) = counter {
            turns.push((counter.place, counter.turns))?;
        }
    }
    Ok(turns)
}

#[test]
fn a_place_is_free_taken_or_finished(rt: HostRuntime) -> Result<(), Fail> {
    let all = counters(rt.alloc(), &[0, 2])?;
    let (shelf, mut one) = of(rt.alloc(), all)?;
    let mut other = split(&shelf, &mut one);
    let Taken::Vcpu(mut counter) = take(&shelf, &mut one) else {
        panic!(rt; "place 1 is free");
    };
    assert!(rt; counter.place == 1 && counter.turns == 0);
    assert!(rt; matches!(take(&shelf, &mut other), Taken::Busy));
    counter.turn();
    put(&shelf, &mut one, counter);
    let Taken::Vcpu(mut counter) = take(&shelf, &mut other) else {
        panic!(rt; "place 1 is free again");
    };
    assert!(rt; counter.place == 1 && counter.turns == 1);
    counter.turn();
    put(&shelf, &mut other, counter);
    let Taken::AllDone = take(&shelf, &mut other) else {
        panic!(rt; "both are done");
    };
    join(&shelf, &mut one, other);
    let ended = turns(rt.alloc(), close(shelf, one))?;
    assert_eq!(rt; ended.as_slice(), [(0, 0), (1, 2)].as_slice());
    Ok(())
}

#[test]
fn threads_end_each_traveller_once(rt: HostRuntime) -> Result<(), Fail> {
    let all = counters(rt.alloc(), &[400, 0, 1, 700, 300])?;
    let (shelf, mut one) = of(rt.alloc(), all)?;
    let other = split(&shelf, &mut one);
    let (mut one, other) = work_two(&rt, &shelf, one, other);
    join(&shelf, &mut one, other);
    let ended = turns(rt.alloc(), close(shelf, one))?;
    assert_eq!(rt;
        ended.as_slice(),
        [(0, 400), (1, 0), (2, 1), (3, 700), (4, 300)].as_slice()
    );
    Ok(())
}
