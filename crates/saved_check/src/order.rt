//! Lists in order.
ghost use Rattle.std.specs.Prelude.{◌↔◌, IsTrue, All, map};
ghost use Rattle.std.specs.Ordering.{nat_cmp};
ghost use Rattle.std.specs.List.Sorted.{IsStrictlySortedBy};
ghost use Rattle.std.specs.Map.{keys_of};
ghost use Rattle.saved_guest.specs.IdealGuests.Words.{IsShape};
ghost use Rattle.saved_guest.specs.IdealGuests.Registers.{event_cmp};
ghost use Rattle.saved_guest.specs.Valid.{IsValidRec};
ghost use Rattle.saved_check.specs.Tables.{dev_entry, evt_entry, col_entry};
ghost use Rattle.saved_check.specs.Rows.{rec_place, ram_index};

use saved_guest::{ColEnd, DevEnd, EvtEnd, GuestShape, RamState, RecState, place_of};

/// Whether devices stand in order, once each.
pub(crate) fn are_devs_in_order(devs: &[DevEnd]) -> bool
    ensures { IsTrue result ↔ IsStrictlySortedBy nat_cmp (keys_of (map dev_entry devs.now)) }
{
    devs.is_sorted_by(|a, b| a.device < b.device)
}

/// Whether events stand in order, by device and number.
pub(crate) fn are_evts_in_order(evts: &[EvtEnd]) -> bool
    ensures { IsTrue result ↔ IsStrictlySortedBy event_cmp (keys_of (map evt_entry evts.now)) }
{
    evts.is_sorted_by(|a, b| (a.device, a.event) < (b.device, b.event))
}

/// Whether collections stand in order.
pub(crate) fn are_cols_in_order(cols: &[ColEnd]) -> bool
    ensures { IsTrue result ↔ IsStrictlySortedBy nat_cmp (keys_of (map col_entry cols.now)) }
{
    cols.is_sorted_by(|a, b| a.icid < b.icid)
}

/// Whether words of memory stand in order.
pub(crate) fn are_words_in_order(words: &[RamState]) -> bool
    ensures { IsTrue result ↔ IsStrictlySortedBy nat_cmp (map ram_index words.now) }
{
    words.is_sorted_by(|a, b| a.index < b.index)
}

/// Whether interrupts that a guest has stand in key order.
pub(crate) fn are_recs_in_order(recs: &[RecState], shape: &GuestShape) -> bool
    requires shape { IsShape shape.now }
    requires each { All (IsValidRec shape.now) recs.now }
    ensures { IsTrue result ↔ IsStrictlySortedBy nat_cmp (map (rec_place shape.now) recs.now) }
{
    let mut next = 0;
    for rec in recs {
        let place = place_of(rec.key, shape);
        if place < next {
            return false;
        }
        next = place + 1;
    }
    true
}
