//! The one atomic operation on a word that makes a step.
ghost use Rattle.std.specs.Prelude.{◌≡◌, ℕ, ◌<◌, ◌≤◌, ◌^◌, ◌/◌, ◌%◌, ◌-◌, List, IsTrue, Some, is_none, is_some, false};
ghost use Rattle.core_words.specs.Words.{IsShape, max_vcpus, has_interrupt, irq_of};
ghost use Rattle.core_words.specs.Calls.{CanTouch, IsOffset};
ghost use Rattle.core_words.specs.Registers.{is_queue_word, queue_of, packed as packed_queue, enables_in as enables_of};
ghost use Rattle.port_core.specs.declared.atomic.Atomic.TheVariants.{Exchange};
ghost use Rattle.port_core.specs.declared.run.Made.{Made};
ghost use Rattle.port_core.specs.Effect.{may_move as can_move, claimed_irq, touched_irq, changed};
ghost use Rattle.core_words.specs.Forms.{ctlr_of, packed_ctlr, line_of, packed_line};
ghost use Rattle.port_core.specs.Atomic.{IsSeen, Makes, back_bits, release_bits, exchange_by};
ghost use Rattle.core_words.specs.Place.{index_bit as bit_of_key};
ghost use Rattle.port_core.specs.Condition.{Meets};
ghost use Rattle.port_core.specs.Actor.{actor_count};
ghost use Rattle.port_core.specs.Step.{CanStep};
ghost use Rattle.port_core.specs.Local.{is_vcpu, with_inside};
ghost use Rattle.port_core.specs.Valid.{IsLocal, IsIrqWord, IsLineWord};

use crate::advance::{irq_in, queue_in};
use crate::local::Local;
use crate::step::CoreStep;
use core_words::{
    Back, CtlrWord, GuestShape, HELD_BY_NONE, Irq, Key, Line, QueueWord, RAISE, Touching, VcpuWord,
    WIRE_DOWN, WIRE_UP, WORD_BITS, active_mask, cause_mask, enables_in, index_bit,
    irq_pack as pack, pack_line,
};

/// An access waits for the interrupt.
const WANT: u64 = 1 << 8;
/// All bits but those of the holder and of active-by.
const NO_VCPU: u64 = u64::MAX - (0xFFF << 14);
/// EnableLPIs and the kick of a vCPU.
const LPIS_AND_KICK: u64 = 0b11;
/// The kick of a vCPU.
const KICK: u64 = 0b10;
/// The group enables of GICD_CTLR.
const ENABLES: u64 = 0b11;
/// What the queue's word says but for who has the ITS.
const QUEUE: u64 = 0xFFFF_FFFF;
/// The devices in a translation line.
const INSIDE: u64 = 0b1111;
/// The one word of a translation line with neither a message nor a device.
const EMPTY_LINE: u64 = 0;

/// One atomic operation on a word of 64 bits, which hands out the word as it found it.
#[derive(Clone, Copy, Debug, PartialEq, Eq)]
pub enum Atomic {
    /// A load.
    Load,
    /// A fetch-and.
    And { mask: u64 },
    /// A fetch-or.
    Or { mask: u64 },
    /// A swap.
    Swap { value: u64 },
    /// A compare-exchange: the word becomes `value` if it is `seen`.
    Exchange { seen: u64, value: u64 },
}

/// The bits that give back what an interface has of an interrupt.
fn back_mask(back: Back, vcpu: u32) -> u64
    requires { vcpu < max_vcpus }
    ensures { result ≡ back_bits back vcpu }
{
    let active = if back.active { active_mask(vcpu) } else { 0 };
    cause_mask(back.rise, back.soft) + active
}

/// The bits that a release keeps: all but the holder's, and of an inactive interrupt all but active-by's too.
fn release_mask(active: bool) -> u64
    ensures { result ≡ release_bits active }
{
    if active { HELD_BY_NONE } else { NO_VCPU }
}

/// A compare-exchange of a word that was seen, or a load where the step would not do what it is for.
fn exchange_if(succeeds: bool, seen: u64, value: u64) -> Atomic
    ensures { result ≡ exchange_by succeeds seen value }
{
    if succeeds {
        Atomic::Exchange { seen, value }
    } else {
        Atomic::Load
    }
}

/// The compare-exchange that touches an interrupt.
fn touch_by(key: Key, seen: u64, kind: Touching, shape: &GuestShape) -> Atomic
    requires shape { IsShape shape.now }
    requires can { CanTouch shape.now key kind }
    requires valid { IsIrqWord shape.now key seen }
    ensures { result ≡ exchange_by (is_none (irq_of seen).holder) seen (changed (touched_irq shape.now key kind) seen) }
{
    let irq = irq_in(seen);
    let after = Irq {
        want: false,
        ..kind.applied(key, &irq, shape)
    };
    exchange_if(irq.holder.is_none(), seen, pack(&after))
}

/// The compare-exchange that takes the mark of GICD_CTLR.
fn ctlr_take_by(seen: u64, value: u32, actor: u32) -> Atomic
    requires { actor < 64 }
    ensures { result ≡ exchange_by (is_none (ctlr_of seen).mark) seen (packed_ctlr (record { enables = enables_of value; mark = Some actor })) }
{
    let taken = CtlrWord {
        enables: enables_in(value),
        mark: Some(actor),
    };
    exchange_if(CtlrWord::of(seen).mark.is_none(), seen, taken.pack())
}

/// The compare-exchange that takes the ITS.
fn turn_take_by(seen: u64, actor: u32) -> Atomic
    requires actor { actor < 64 }
    requires valid { IsTrue (is_queue_word seen) }
    ensures { result ≡ exchange_by (is_none (queue_of seen).turn) seen (packed_queue (record (queue_of seen) { turn = Some actor })) }
{
    let queue = queue_in(seen);
    let taken = QueueWord {
        turn: Some(actor),
        ..queue
    };
    exchange_if(queue.turn.is_none(), seen, core_words::queue_pack(&taken))
}

/// The word of a queue that an actor has.
fn queue_word(offset: u32, stalled: bool, actor: u32) -> u64
    requires actor { actor < 64 }
    requires offset { IsOffset offset }
    ensures { result ≡ packed_queue (record { turn = Some actor; offset = offset; stalled = stalled }) }
{
    core_words::queue_pack(&QueueWord {
        turn: Some(actor),
        offset,
        stalled,
    })
}

/// The bit of an interrupt in its word of an index.
fn index_mask(key: Key, shape: &GuestShape) -> u64
    requires shape { IsShape shape.now }
    requires there { IsTrue (has_interrupt shape.now key) }
    ensures { result ≡ 2 ^ (bit_of_key shape.now key % 64) }
{
    1 << (index_bit(key, shape) % WORD_BITS)
}

/// The bit of a device in the set of the devices that are in a line.
fn device_bit(actor: u32, shape: &GuestShape) -> u32
    requires device { is_vcpu shape.now actor ≡ false }
    requires actor { actor < actor_count shape.now }
    requires shape { IsShape shape.now }
    ensures value { result ≡ 2 ^ (actor - shape.now.vcpus) }
    ensures bound { result < 16 }
{
    1 << (actor - shape.vcpus)
}

/// The compare-exchange by which a device gets into a line.
fn line_enter_by(seen: u64, actor: u32, shape: &GuestShape) -> Atomic
    requires device { is_vcpu shape.now actor ≡ false }
    requires actor { actor < actor_count shape.now }
    requires shape { IsShape shape.now }
    requires valid { IsLineWord shape.now seen }
    ensures { result ≡ exchange_by (is_some (line_of seen).pair) seen (packed_line (with_inside shape.now actor (line_of seen))) }
{
    let line = Line::of(seen);
    let entered = Line {
        inside: line.inside | device_bit(actor, shape),
        ..line
    };
    exchange_if(line.pair.is_some(), seen, pack_line(&entered))
}

/// The compare-exchange that fills an empty line.
fn line_fill_by(device: u32, event: u32, lpi: u32) -> Atomic
    requires device { device < 65536 }
    requires event { event < 65536 }
    requires from { 8192 ≤ lpi }
    requires lpi { lpi < 16384 }
    ensures { result ≡ Exchange 0 (packed_line (record { pair = Some (device, event); lpi = lpi; inside = 0 })) }
{
    let filled = Line {
        pair: Some((device, event)),
        lpi,
        inside: 0,
    };
    Atomic::Exchange {
        seen: EMPTY_LINE,
        value: pack_line(&filled),
    }
}

impl Local {
    /// The compare-exchange of a claim.
    fn claim_by(&self, key: Key, seen: u64, actor: u32, shape: &GuestShape) -> Atomic
        requires shape { IsShape shape.now }
        requires actor { actor < shape.now.vcpus }
        requires valid { IsIrqWord shape.now key seen }
        ensures { result ≡ exchange_by (can_move shape.now actor self.now key (irq_of seen)) seen (changed (claimed_irq actor self.now key) seen) }
    {
        let irq = irq_in(seen);
        let claimed = self.claimed(key, &irq, actor).irq;
        exchange_if(
            self.may_claim(key, &irq, actor, shape),
            seen,
            pack(&claimed),
        )
    }

    /// The one atomic operation that makes a step of an actor: of the guest, on what the actor's steps before found
    /// or left. It takes no memory.
    #[inline(always)]
    pub fn operation(&self, step: &CoreStep, actor: u32, shape: &GuestShape) -> Atomic
        requires shape { IsShape shape.now }
        requires actor { actor < actor_count shape.now }
        requires can { CanStep shape.now actor step.now }
        requires seen { IsSeen shape.now step.now }
        requires local { IsLocal shape.now actor self.now }
        requires meets { (own : List Made) × Meets shape.now actor self.now own step.now }
        ensures { Makes shape.now actor self.now step.now result }
    {
        match *step {
            CoreStep::Look { .. } | CoreStep::RamLook { .. } => Atomic::Load,
            CoreStep::Raise { .. } => Atomic::Or { mask: RAISE },
            CoreStep::Claim { key, seen } => self.claim_by(key, seen, actor, shape),
            CoreStep::GiveBack { back, .. } => Atomic::Or {
                mask: back_mask(back, actor),
            },
            CoreStep::Release { key } => Atomic::And {
                mask: release_mask(self.is_active(key)),
            },
            CoreStep::Poll { .. } => Atomic::And { mask: !KICK },
            CoreStep::Kick { .. } => Atomic::Or { mask: KICK },
            CoreStep::Touch { key, seen, kind } => touch_by(key, seen, kind, shape),
            CoreStep::Want { .. } => Atomic::Or { mask: WANT },
            CoreStep::WireUp { .. } => Atomic::Or { mask: WIRE_UP },
            CoreStep::WireDown { .. } => Atomic::And { mask: WIRE_DOWN },
            CoreStep::EnableLpis { .. } => Atomic::Or {
                mask: LPIS_AND_KICK,
            },
            CoreStep::RamPut { seen, value, .. } => Atomic::Exchange { seen, value },
            CoreStep::CtlrTake { seen, value } => ctlr_take_by(seen, value, actor),
            CoreStep::CtlrEnd => Atomic::And { mask: ENABLES },
            CoreStep::TurnTake { seen } => turn_take_by(seen, actor),
            CoreStep::CommandDone {
                offset,
                stalled,
                ..
            } => Atomic::Swap {
                value: queue_word(offset, stalled, actor),
            },
            CoreStep::TurnRelease => Atomic::And { mask: QUEUE },
            CoreStep::Mark { key, .. } => Atomic::Or {
                mask: index_mask(key, shape),
            },
            CoreStep::TakeIndex { .. } => Atomic::Swap { value: 0 },
            CoreStep::LineEnter { seen, .. } => line_enter_by(seen, actor, shape),
            CoreStep::LineLeave { .. } => Atomic::And {
                mask: !u64::from(device_bit(actor, shape)),
            },
            CoreStep::LineFill {
                device,
                event,
                lpi,
                ..
            } => line_fill_by(device, event, lpi),
            CoreStep::LineClose { .. } => Atomic::And { mask: INSIDE },
        }
    }
}
