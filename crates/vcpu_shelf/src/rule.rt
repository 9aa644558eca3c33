//! The rule of the shelf, and what a step under it tells its seat. No value of these types is made.
ghost use Rattle.vcpu_shelf.specs.Reserve.{IsReserve};
ghost use Rattle.vcpu_shelf.specs.Rule.{IsShelf, IsLooked, IsTried, IsStored};
ghost use Rattle.vcpu_shelf.specs.View.{no_view, joined};

use crate::traveller::Traveller;
use crate::view::View;
use atomic_table::{Join, Play, Seat, Shared, Split, TableRule};

/// Each place is free, taken or finished, and its traveller is with one seat or on the shelf.
pub struct OneOwner;

impl<T: Traveller> TableRule<Option<T>, View, u32> for OneOwner {
    ghost holds = { IsShelf T.place T.next T.done };

    ghost first = { λ _. no_view };
}

/// The owner words and slots, as seats share them.
pub(crate) type Owners<T> = Shared<Option<T>, View, u32, OneOwner>;

/// A seat at them.
pub(crate) type OwnerSeat<T> = Seat<Option<T>, View>;

/// Tells that a seat looked at an owner word.
pub(crate) struct Looking;

impl<T: Traveller> Play<Option<T>, View> for Looking {
    ghost then = { λ step before found after. IsLooked step.word before found after };
}

/// Tells that a seat tried to take a place against the word that it had seen.
pub(crate) struct Trying;

impl<T: Traveller> Play<Option<T>, View> for Trying {
    ghost then = { λ step before found after. IsTried T.place T.next T.done step.word step.first before found after };
}

/// Tells that a seat put a place back.
pub(crate) struct Storing;

impl<T: Traveller> Play<Option<T>, View> for Storing {
    ghost then = { λ step before _ after. IsStored step.word step.first before after };
}

/// A new seat knows nothing yet.
pub(crate) struct Splitting;

impl Split<View> for Splitting {
    ghost left = { λ view. view };

    ghost right = { λ _. no_view };
}

/// A seat takes in the steps of another, which is used no more.
pub(crate) struct Joining;

impl Join<View> for Joining {
    ghost both = { joined };

    ghost spent = { no_view };
}

/// There is an empty vector with room for so many.
pub(crate) struct Reserve;

impl<T> TableRule<Vec<Option<T>>, (), u32> for Reserve {
    ghost holds = { IsReserve };

    ghost first = { λ _. tt };
}
