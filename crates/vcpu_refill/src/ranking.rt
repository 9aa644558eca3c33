//! The first of some interrupts.
ghost use Rattle.std.specs.Prelude.{◌≡◌, ◌<◌, ◌≤◌, ◌-◌, ◌∷◌, min, [], List, Some, None, length, take, insert, position, filter, is_some, if◌then◌else◌};
ghost use Rattle.std.specs.List.{slice_index_or};
ghost use Rattle.vcpu_refill.specs.declared.offer.Offer.{Offer};
ghost use Rattle.vcpu_refill.specs.Order.{inserted};
ghost use Rattle.vcpu_refill.specs.Ranking.{ranking_of, gives_way};

use crate::offer::Offer;
use gic_ich::MAX_LIST_REGISTERS;

/// The first of some interrupts in delivery order, as many as a PE has list registers at most.
#[derive(Clone, Copy, Debug)]
pub struct Ranking {
    /// The first ones in order, and none past the last.
    pub places: [Option<Offer>; MAX_LIST_REGISTERS],
    /// There are more.
    pub more: bool,
}

/// Whether a place is free, or has an interrupt that this one goes before.
fn gives_way_to(kept: &Option<Offer>, offer: &Offer) -> bool
    ensures { result ≡ gives_way offer.now kept.now }
{
    match kept {
        Some(kept) => offer.goes_before(kept),
        None => true,
    }
}

/// The first place that gives way to an interrupt.
fn place_for(places: &[Option<Offer>], offer: &Offer) -> Option<usize>
    ensures { result ≡ position (gives_way offer.now) places.now }
{
    places.iter().position(|kept| gives_way_to(kept, offer))
}

/// How many places are taken.
fn taken(places: &[Option<Offer>]) -> usize
    ensures { result ≡ length (filter is_some places.now) }
{
    places.iter().filter(|kept| kept.is_some()).count()
}

/// Puts an interrupt in front, and the others one place further. What was in the last place comes back.
fn put_in_front(places: &mut [Option<Offer>], offer: Offer) -> Option<Offer>
    requires { 0 < length places.old }
    ensures after { places.new ≡ take (length places.old) (Some offer ∷ places.old) }
    ensures out { result ≡ slice_index_or places.old (length places.old - 1) None }
{
    places.rotate_right(1);
    places[0].replace(offer)
}

/// Puts an interrupt into a place, and what is there and behind it one place further. What was in the
/// last place comes back.
fn put_at(places: &mut [Option<Offer>], place: usize, offer: Offer) -> Option<Offer>
    requires { place < length places.old }
    ensures after { places.new ≡ take (length places.old) (insert places.old place (Some offer)) }
    ensures out { result ≡ slice_index_or places.old (length places.old - 1) None }
{
    put_in_front(&mut places[place..], offer)
}

impl Ranking {
    /// The first of no interrupts.
    pub(crate) fn empty() -> Ranking
        ensures { result ≡ ranking_of [] }
    {
        Ranking {
            places: [None; MAX_LIST_REGISTERS],
            more: false,
        }
    }

    /// Takes one more interrupt into account.
    pub(crate) fn put(&mut self, offer: Offer)
        ensures { (offers : List Offer) → self.old ≡ ranking_of offers →
            self.new ≡ ranking_of (inserted offer offers) }
    {
        match place_for(&self.places, &offer) {
            Some(place) => {
                let out = put_at(&mut self.places, place, offer);
                self.more |= out.is_some();
            }
            None => self.more = true,
        }
    }

    /// Takes one more interrupt into account where it counts.
    pub(crate) fn put_where(&mut self, counts: bool, offer: Offer)
        ensures { (offers : List Offer) → self.old ≡ ranking_of offers →
            self.new ≡ ranking_of (if counts then inserted offer offers else offers) }
    {
        if counts {
            self.put(offer);
        }
    }

    /// How many interrupts are kept.
    pub(crate) fn count(&self) -> usize
        ensures value { (offers : List Offer) → self.now ≡ ranking_of offers →
            result ≡ min MAX_LIST_REGISTERS (length offers) }
        ensures bound { result ≤ MAX_LIST_REGISTERS }
    {
        taken(&self.places)
    }
}
