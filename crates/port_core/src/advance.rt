//! What a step leaves of its actor's own state.
ghost use Rattle.std.specs.Prelude.{ℕ as Number, ◌≡◌, ◌<◌, ◌≤◌, ◌/◌, ◌+◌, ◌==◌, [], ◌∷◌, IsTrue, IfSome, All, Option, Some, None, false, if◌then◌else◌};
ghost use Rattle.core_words.specs.Words.{GuestShape, IsShape, max_vcpus, has_interrupt, irq_of, IsIrq, IsSeat, IsWord};
ghost use Rattle.core_words.specs.Calls.{CanTouch};
ghost use Rattle.core_words.specs.Registers.{IsQueue, is_queue_word, queue_of, HasBinaryPoints};
ghost use Rattle.port_core.specs.declared.step.CoreStep.TheVariants.{Claim, Touch, LineEnter};
ghost use Rattle.port_core.specs.After.{concerned as concerned_of, concerned_by as concerned_of_touch, looked_at, claimed_at, given_at, release_at, polled_at, index_taken, marked, looked_at_line, closed_line, local_after};
ghost use Rattle.port_core.specs.Condition.{may_claim as may_claim_at, has_room};
ghost use Rattle.core_words.specs.Place.{index_words as words_of};
ghost use Rattle.port_core.specs.Effect.{succeeds, is_active_at};
ghost use Rattle.port_core.specs.Local.{owing, owing_both, with_shut, without_shut};
ghost use Rattle.core_words.specs.Forms.{is_empty_line};
ghost use Rattle.port_core.specs.Step.{CanStep, word_of};
ghost use Rattle.port_core.specs.Valid.{IsLocal, CanFind, IsIrqWord};

use crate::at_list::{AtIrq, Change, Which};
use crate::local::{Local, Phase};
use crate::owed::{MarkSet, NO_VCPUS, with_all, without_vcpu};
use crate::step::CoreStep;
use core_words::{
    CtlrWord, Entered, GuestShape, IccReg, Irq, Key, Line, QueueWord, Touching, VcpuWord, WordId,
    index_words, irq_unpack as unpack, ripe, target_in,
};

/// Whom a cause that comes or goes concerns: the target, and the vCPU that holds the interrupt, or where nobody does
/// the one by which it is active.
fn concerned(irq: &Irq, shape: &GuestShape) -> [Option<u32>; 2]
    ensures { result ≡ concerned_of shape.now irq.now }
{
    [target_in(irq.route, shape), irq.holder.or(irq.act_by)]
}

/// Whom a touch concerns: the targets before and after it, and the vCPUs by which the interrupt is active then.
fn concerned_by(before: &Irq, after: &Irq, shape: &GuestShape) -> [Option<u32>; 4]
    ensures { result ≡ concerned_of_touch shape.now before.now after.now }
{
    [
        target_in(before.route, shape),
        target_in(after.route, shape),
        before.act_by,
        after.act_by,
    ]
}

impl Local {
    /// It owes a kick to some vCPUs besides, and marks of an interrupt to some.
    fn owe(&mut self, kicks: &[Option<u32>], key: Key, marks: &[Option<u32>])
        requires kicks { All IsSeat kicks.now }
        requires marks { All IsSeat marks.now }
        ensures { self.new ≡ owing kicks.now key marks.now self.old }
    {
        self.owes = with_all(self.owes, kicks);
        self.marks = MarkSet {
            key: Some(key),
            vcpus: with_all(NO_VCPUS, marks),
        };
    }

    /// A cause of an interrupt came or went.
    #[tactic(auto, using(crate::proofs::SeatLemmas::concerned_seats))]
    fn owe_for(&mut self, key: Key, irq: &Irq, shape: &GuestShape)
        requires shape { IsShape shape.now }
        requires packable { IsIrq irq.now }
        ensures { self.new ≡ owing_both key (concerned_of shape.now irq.now) self.old }
    {
        let vcpus = concerned(irq, shape);
        self.owe(&vcpus, key, &vcpus);
    }

    /// It looked at an interrupt: it need not again, unless the interrupt is ripe for it or active by it.
    fn look(&mut self, key: Key, irq: &Irq, actor: u32, shape: &GuestShape)
        requires shape { IsShape shape.now }
        requires there { IsTrue (has_interrupt shape.now key) }
        ensures { self.new ≡ looked_at shape.now actor key irq.now self.old }
    {
        if actor < shape.vcpus && !(ripe(irq, actor) || irq.act_by == Some(actor)) {
            self.cands.settle(key, actor, shape);
        }
    }

    /// It touched an interrupt.
    #[tactic(auto, using(crate::proofs::SeatLemmas::touched_seats))]
    fn owe_for_touch(&mut self, key: Key, before: &Irq, after: &Irq, shape: &GuestShape)
        requires shape { IsShape shape.now }
        requires before { IsIrq before.now }
        requires after { IsIrq after.now }
        ensures { self.new ≡ owing_both key (concerned_of_touch shape.now before.now after.now) self.old }
    {
        let vcpus = concerned_by(before, after, shape);
        self.owe(&vcpus, key, &vcpus);
    }

    /// It claimed an interrupt, whose record it found so.
    fn claim(&mut self, key: Key, irq: &Irq, actor: u32, shape: &GuestShape)
        requires shape { IsShape shape.now }
        requires there { IsTrue (has_interrupt shape.now key) }
        requires room { IsTrue (may_claim_at key self.old) }
        ensures { self.new ≡ claimed_at shape.now actor key irq.now self.old }
    {
        let moved = self.claimed(key, irq, actor);
        match self.at.find(key) {
            Some(_) => self.at.change(Which::Key(key), Change::Brings(moved.entry)),
            None => self.at.push(AtIrq::arrived(key, irq, moved.entry)),
        }
        self.cands.settle(key, actor, shape);
    }

    /// It gave back what its interface has of an interrupt.
    fn give_back(&mut self, key: Key)
        ensures { self.new ≡ given_at key self.old }
    {
        self.at.change(Which::Key(key), Change::Given);
        self.phase = Phase::Folding;
    }

    /// It released an interrupt, whose record it found so.
    #[tactic(auto, using(crate::proofs::SeatLemmas::told_seats, crate::proofs::SeatLemmas::marked_seats))]
    fn release(&mut self, key: Key, irq: &Irq, actor: u32, shape: &GuestShape)
        requires shape { IsShape shape.now }
        requires actor { actor < max_vcpus }
        requires packable { IsIrq irq.now }
        ensures { self.new ≡ release_at shape.now actor key irq.now (is_active_at key self.old) self.old }
    {
        let active = self.is_active(key);
        let target = target_in(irq.route, shape);
        let told = target.filter(|vcpu| !active && *vcpu != actor);
        let kicks = [told];
        let marks = [target, if active { Some(actor) } else { None }];
        self.at.remove(key);
        self.owe(&kicks, key, &marks);
    }

    /// Whether an interrupt at the interface is active there.
    pub fn is_active(&self, key: Key) -> bool
        ensures { result ≡ is_active_at key self.now }
    {
        match self.at.find(key) {
            Some(entry) => entry.active,
            None => false,
        }
    }

    /// It looked whether it is kicked.
    fn poll(&mut self, reg: Option<IccReg>, write: Option<u64>, word: VcpuWord)
        requires { HasBinaryPoints self.old.cpu }
        ensures { self.new ≡ polled_at reg write word self.old }
    {
        match reg {
            None => {
                self.phase = Phase::Scanning;
                self.cpu.lpis = word.lpis;
            }
            Some(_) if word.kick => self.phase = Phase::Folding,
            Some(reg) => self.access(reg, write),
        }
    }

    /// It took the bits of a word of its index.
    fn take_index(&mut self, word: u32, bits: u64, shape: &GuestShape)
        requires shape { IsShape shape.now }
        requires there { word < words_of shape.now }
        ensures { self.new ≡ index_taken shape.now word bits self.old }
    {
        self.cands.add(word, bits);
        if self.phase == Phase::Scanning && word + 1 == index_words(shape) {
            self.phase = Phase::Claiming;
        }
    }

    /// It marked an interrupt for a vCPU.
    fn mark(&mut self, key: Key, vcpu: u32, actor: u32, shape: &GuestShape)
        requires shape { IsShape shape.now }
        requires there { IsTrue (has_interrupt shape.now key) }
        requires vcpu { vcpu < max_vcpus }
        ensures { self.new ≡ marked shape.now actor key vcpu self.old }
    {
        if self.marks.key == Some(key) {
            self.marks.vcpus = without_vcpu(self.marks.vcpus, vcpu);
        }
        if vcpu == actor {
            self.cands.settle(key, actor, shape);
        }
    }

    /// It tried to claim an interrupt.
    fn try_claim(&mut self, key: Key, seen: u64, found: u64, actor: u32, shape: &GuestShape)
        requires shape { IsShape shape.now }
        requires actor { actor < shape.now.vcpus }
        requires there { IsTrue (has_interrupt shape.now key) }
        requires word { IsWord found }
        requires room { IsTrue (may_claim_at key self.old) }
        ensures { self.new ≡ local_after shape.now actor self.old (Claim key seen) found }
    {
        let irq = irq_in(found);
        if found == seen && self.may_claim(key, &irq, actor, shape) {
            self.claim(key, &irq, actor, shape);
        }
    }

    /// It tried to touch an interrupt.
    fn try_touch(&mut self, key: Key, seen: u64, kind: Touching, found: u64, shape: &GuestShape)
        requires shape { IsShape shape.now }
        requires can { CanTouch shape.now key kind }
        requires valid { IsIrqWord shape.now key found }
        ensures { (actor : Number) → self.new ≡ local_after shape.now actor self.old (Touch key seen kind) found }
    {
        let irq = irq_in(found);
        if found == seen && irq.holder.is_none() {
            let after = kind.applied(key, &irq, shape);
            self.owe_for_touch(key, &irq, &after, shape);
        }
    }

    /// It knows a translation line to be shut.
    fn with_shut(&mut self, line: u32)
        requires { line < 64 }
        ensures { self.new ≡ with_shut line self.old }
    {
        self.shut |= 1 << line;
    }

    /// It looked at a translation line.
    fn look_at_line(&mut self, number: u32, line: &Line)
        requires { number < 64 }
        ensures { self.new ≡ looked_at_line number line.now self.old }
    {
        if self.turn && line.is_empty() {
            self.with_shut(number);
        }
    }

    /// It tried to get into a translation line.
    fn enter_line(&mut self, number: u32, seen: u64, found: u64)
        ensures { (shape : GuestShape) → (actor : Number) → self.new ≡ local_after shape actor self.old (LineEnter number seen) found }
    {
        let line = Line::of(found);
        if let (true, Some(pair)) = (found == seen, line.pair) {
            self.line = Some(Entered {
                line: number,
                pair,
                lpi: line.lpi,
            });
        }
    }

    /// It tried to fill a translation line.
    fn fill_line(&mut self, number: u32, line: &Line)
        requires { number < 64 }
        ensures { self.new ≡ (if is_empty_line line.now then without_shut number self.old else self.old) }
    {
        if line.is_empty() {
            self.shut &= !(1 << number);
        }
    }

    /// It closed a translation line.
    fn close_line(&mut self, number: u32, line: &Line)
        requires { number < 64 }
        ensures { self.new ≡ closed_line number line.now self.old }
    {
        if line.inside == 0 {
            self.with_shut(number);
        }
    }

    /// It gave the ITS back.
    fn release_turn(&mut self)
        ensures { self.new ≡ record self.old { turn = false; shut = 0 } }
    {
        self.turn = false;
        self.shut = 0;
    }

    /// The actor's own state after a step of it that found its word so: a step of the guest, on a valid word that
    /// agrees with that state. No step copies the state.
    #[inline(always)]
    pub fn advance(&mut self, step: &CoreStep, found: u64, actor: u32, shape: &GuestShape)
        requires shape { IsShape shape.now }
        requires can { CanStep shape.now actor step.now }
        requires local { IsLocal shape.now actor self.old }
        requires found { CanFind shape.now actor self.old (word_of shape.now actor step.now) found }
        requires room { IsTrue (has_room step.now self.old) }
        ensures { self.new ≡ local_after shape.now actor self.old step.now found }
    {
        match *step {
            CoreStep::Look {
                word: WordId::Irq(key),
            } => self.look(key, &irq_in(found), actor, shape),
            CoreStep::Raise { key } | CoreStep::WireUp { key } | CoreStep::WireDown { key } => {
                self.owe_for(key, &irq_in(found), shape);
            }
            CoreStep::Claim { key, seen } => self.try_claim(key, seen, found, actor, shape),
            CoreStep::GiveBack { key, .. } => self.give_back(key),
            CoreStep::Release { key } => self.release(key, &irq_in(found), actor, shape),
            CoreStep::Poll { reg, write } => self.poll(reg, write, VcpuWord::of(found)),
            CoreStep::Kick { vcpu } => self.owes = without_vcpu(self.owes, vcpu),
            CoreStep::Touch { key, seen, kind } => self.try_touch(key, seen, kind, found, shape),
            CoreStep::CtlrTake { seen, .. } => self.ctlr |= found == seen
                && CtlrWord::of(found).mark.is_none(),
            CoreStep::CtlrEnd => self.ctlr = false,
            CoreStep::TurnTake { seen } => self.turn |= found == seen
                && queue_in(found).turn.is_none(),
            CoreStep::TurnRelease => self.release_turn(),
            CoreStep::Mark { key, vcpu } => self.mark(key, vcpu, actor, shape),
            CoreStep::TakeIndex { word } => self.take_index(word, found, shape),
            CoreStep::Look {
                word: WordId::Line(line),
            } => self.look_at_line(line, &Line::of(found)),
            CoreStep::LineEnter { line, seen } => self.enter_line(line, seen, found),
            CoreStep::LineLeave { .. } => self.line = None,
            CoreStep::LineFill { line, .. } => self.fill_line(line, &Line::of(found)),
            CoreStep::LineClose { line } => self.close_line(line, &Line::of(found)),
            _ => {}
        }
    }
}

/// The record of an interrupt's word.
pub(crate) fn irq_in(word: u64) -> Irq
    requires { IsWord word }
    ensures value { result ≡ irq_of word }
    ensures packable { IsIrq result }
{
    unpack(word).unwrap()
}

/// What a queue's word says.
pub(crate) fn queue_in(word: u64) -> QueueWord
    requires { IsTrue (is_queue_word word) }
    ensures value { result ≡ queue_of word }
    ensures queue { IsQueue result }
{
    core_words::queue_unpack(word).unwrap()
}
