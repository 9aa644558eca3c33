//! Whether what an event handed out is what is there.
ghost use Rattle.std.specs.Prelude.{◌≡◌, ◌↔◌, IsTrue};

use floor_calls::{Enables, Found, Irq};

/// Whether two records have the same priority, enable and group.
fn are_set_so(a: &Irq, b: &Irq) -> bool
    ensures { IsTrue result ↔ ((a.now.prio ≡ b.now.prio) × (a.now.enabled ≡ b.now.enabled) × (a.now.group ≡ b.now.group)) }
{
    a.prio == b.prio && a.enabled == b.enabled && a.group == b.group
}

/// Whether two records have the same trigger, wire and causes.
fn are_raised_so(a: &Irq, b: &Irq) -> bool
    ensures { IsTrue result ↔ ((a.now.edge ≡ b.now.edge) × (a.now.line ≡ b.now.line) × (a.now.rise ≡ b.now.rise) × (a.now.soft ≡ b.now.soft)) }
{
    a.edge == b.edge && a.line == b.line && a.rise == b.rise && a.soft == b.soft
}

/// Whether two records have the same vCPUs at which they are active and held, and are wanted alike.
fn are_held_so(a: &Irq, b: &Irq) -> bool
    ensures { IsTrue result ↔ ((a.now.act_by ≡ b.now.act_by) × (a.now.holder ≡ b.now.holder) × (a.now.want ≡ b.now.want)) }
{
    a.act_by == b.act_by && a.holder == b.holder && a.want == b.want
}

/// Whether two records have the same copies of the group enables, and the same route.
fn are_sent_so(a: &Irq, b: &Irq) -> bool
    ensures { IsTrue result ↔ ((a.now.en0 ≡ b.now.en0) × (a.now.en1 ≡ b.now.en1) × (a.now.route ≡ b.now.route)) }
{
    a.en0 == b.en0 && a.en1 == b.en1 && a.route == b.route
}

/// Whether two records are the same.
fn is_same_irq(a: &Irq, b: &Irq) -> bool
    ensures { IsTrue result ↔ (a.now ≡ b.now) }
{
    are_set_so(a, b) && are_raised_so(a, b) && are_held_so(a, b) && are_sent_so(a, b)
}

/// Whether two pairs of enables are the same.
fn are_same_enables(a: Enables, b: Enables) -> bool
    ensures { IsTrue result ↔ (a ≡ b) }
{
    a.group0 == b.group0 && a.group1 == b.group1
}

/// Whether two things that events hand out are the same.
pub fn is_same_found(one: &Found, other: &Found) -> bool
    ensures { IsTrue result ↔ (one.now ≡ other.now) }
{
    match (*one, *other) {
        (Found::Nothing, Found::Nothing) => true,
        (Found::Record { irq: a }, Found::Record { irq: b }) => is_same_irq(&a, &b),
        (Found::Answer { value: a }, Found::Answer { value: b }) => a == b,
        (Found::Word { value: a }, Found::Word { value: b }) => a == b,
        (
            Found::Queue {
                offset: a,
                is_stalled: stalled_a,
            },
            Found::Queue {
                offset: b,
                is_stalled: stalled_b,
            },
        ) => a == b && stalled_a == stalled_b,
        (
            Found::Ctlr {
                enables: a,
                is_spreading: spreading_a,
            },
            Found::Ctlr {
                enables: b,
                is_spreading: spreading_b,
            },
        ) => are_same_enables(a, b) && spreading_a == spreading_b,
        (Found::Lpis { is_on: a }, Found::Lpis { is_on: b }) => a == b,
        _ => false,
    }
}
