//! The word of an interrupt: its record in 64 bits, which atomic steps read and change.
ghost use Rattle.std.specs.Prelude.{◌≡◌, ◌↔◌, ◌≤◌, IsSome, IfSome, IsTrue};
ghost use Rattle.gic_base.specs.Shape.{max_vcpus};
ghost use Rattle.gic_word.specs.Word.{IsSeat, IsRoute, IsIrq, IsWord, seat_number, seat_at, route_number, flags_number, packed, HasFlags, route_of, irq_of};

use crate::places::{
    ACTIVE_BY, BY_AFFINITY_BIT, EDGE_BIT, EN0_BIT, EN1_BIT, ENABLED_BIT, END, GROUP_BIT, HOLDER,
    LINE_BIT, PRIORITY, RISE_BIT, ROUTE, SOFT_BIT, WANT_BIT,
};
use crate::record::{Group, Irq, Route};
use gic_base::{MAX_VCPUS, PRIORITY_STEP};
use gic_bits::{has_bit, put_bit};

fn number_of(seat: Option<u32>) -> u64
    requires { IsSeat seat }
    ensures value { result ≡ seat_number seat }
    ensures bound { result ≤ max_vcpus }
{
    match seat {
        Some(vcpu) => u64::from(vcpu) + 1,
        None => 0,
    }
}

fn number_of_route(route: Route) -> u64
    requires { IsRoute route }
    ensures { result ≡ route_number route }
{
    match route {
        Route::Affinity(affinity) => {
            put_bit(true, BY_AFFINITY_BIT) + ROUTE.put(u64::from(affinity))
        }
        Route::Target(target) => ROUTE.put(number_of(target)),
    }
}

fn flags_of(irq: &Irq) -> u64
    ensures value { result ≡ flags_number irq.now }
    ensures flags { HasFlags irq.now result }
{
    let in_group_1 = irq.group == Group::G1;
    put_bit(irq.soft, SOFT_BIT)
        + put_bit(irq.line, LINE_BIT)
        + put_bit(irq.rise, RISE_BIT)
        + put_bit(irq.edge, EDGE_BIT)
        + put_bit(irq.enabled, ENABLED_BIT)
        + put_bit(in_group_1, GROUP_BIT)
        + put_bit(irq.en0, EN0_BIT)
        + put_bit(irq.en1, EN1_BIT)
        + put_bit(irq.want, WANT_BIT)
}

/// The word of an interrupt. Its priority is a multiple of 8, and the vCPUs that it names are below 32.
pub fn pack(irq: &Irq) -> u64
    requires { IsIrq irq.now }
    ensures value { result ≡ packed irq.now }
    ensures word { IsWord result }
    ensures back { irq_of result ≡ irq.now }
{
    flags_of(irq)
        + PRIORITY.put(u64::from(irq.prio / PRIORITY_STEP))
        + ACTIVE_BY.put(number_of(irq.act_by))
        + HOLDER.put(number_of(irq.holder))
        + number_of_route(irq.route)
}

fn seat_in(field: u64) -> Option<u32>
    requires { field ≤ max_vcpus }
    ensures value { result ≡ seat_at field }
    ensures seat { IsSeat result }
{
    if field == 0 {
        return None;
    }
    Some((field - 1) as u32)
}

/// Whether each vCPU's number in the word is none or in range, and no bit is 1 past the fields.
fn is_word(word: u64) -> bool
    ensures { IsTrue result ↔ IsWord word }
{
    let vcpus = u64::from(MAX_VCPUS);
    ACTIVE_BY.of(word) <= vcpus
        && HOLDER.of(word) <= vcpus
        && (has_bit(word, BY_AFFINITY_BIT) || ROUTE.of(word) <= vcpus)
        && word < END
}

fn route_in(word: u64) -> Route
    requires { IsWord word }
    ensures { result ≡ route_of word }
{
    let field = ROUTE.of(word);
    if has_bit(word, BY_AFFINITY_BIT) {
        return Route::Affinity(field as u32);
    }
    Route::Target(seat_in(field))
}

fn record_of(word: u64) -> Irq
    requires { IsWord word }
    ensures { result ≡ irq_of word }
{
    Irq {
        prio: PRIORITY.of(word) as u8 * PRIORITY_STEP,
        enabled: has_bit(word, ENABLED_BIT),
        group: if has_bit(word, GROUP_BIT) {
            Group::G1
        } else {
            Group::G0
        },
        edge: has_bit(word, EDGE_BIT),
        line: has_bit(word, LINE_BIT),
        rise: has_bit(word, RISE_BIT),
        soft: has_bit(word, SOFT_BIT),
        act_by: seat_in(ACTIVE_BY.of(word)),
        holder: seat_in(HOLDER.of(word)),
        want: has_bit(word, WANT_BIT),
        en0: has_bit(word, EN0_BIT),
        en1: has_bit(word, EN1_BIT),
        route: route_in(word),
    }
}

/// The record of an interrupt's word. None exactly where the word is not well formed: a vCPU's number is
/// above 31, or a bit is 1 that belongs to no field.
#[tactic(auto, using(crate::proofs::WordLemmas::irq_fits, crate::proofs::WordLemmas::packed_back))]
pub fn unpack(word: u64) -> Option<Irq>
    ensures exactly { IsSome result ↔ IsWord word }
    ensures value { IfSome result (λ irq. irq ≡ irq_of word) }
    ensures packable { IfSome result IsIrq }
    ensures back { IfSome result (λ irq. packed irq ≡ word) }
{
    if !is_word(word) {
        return None;
    }
    Some(record_of(word))
}
