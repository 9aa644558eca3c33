//! A source and a sink in memory that fail at chosen calls.

ghost use Rattle.std.specs.Prelude.{◌≡◌, ℕ, ◌<◌, ◌≤◌, ◌↔◌, [], Some, min, length, take, IsTrue, IsSomeAnd, IfOk, OnOk, OnErr, IsErr, ◌++◌};
ghost use Rattle.gic_io.specs.Faults.{one_more};
ghost use Rattle.gic_io.specs.Memory.{Script, after_call, IsFailing};

use crate::fault::{Failed, FaultCount};
use crate::sinks::Sink;
use crate::sources::Source;
use crate::unread::Unread;
use std::alloc::Global;
use std::marker::Model;

/// What is done at each call. A contract sees it as a `Script`.
#[derive(Debug, Drop)]
struct Plan {
    fails: Vec<u64>,
    cut: usize,
    calls: u64,
}

impl Model for Plan {
    ghost use Rattle.std.specs.Prelude.{◌≤◌};
    ghost use Rattle.gic_io.specs.Memory.{Script};

    ghost Value = { Script };

    ghost view = { λ plan. record { fails = plan.fails.items; cut = plan.cut; calls = plan.calls } };

    ghost invariant = { λ plan. 1 ≤ plan.cut };
}

impl Plan {
    fn of(fails: Vec<u64>, cut: usize) -> Self
        requires { 1 ≤ cut }
        ensures { result ≡ record { fails = fails.items; cut = cut; calls = 0 } }
    {
        Plan {
            fails,
            cut,
            calls: 0,
        }
    }

    /// Counts a call, and says whether it fails.
    fn begin_call(&mut self) -> bool
        ensures counted { self.new ≡ after_call self.old }
        ensures fails { IsTrue result ↔ IsFailing self.new }
    {
        self.calls = self.calls.saturating_add(1);
        self.fails.contains(&self.calls)
    }

    /// The most bytes of one call.
    fn cut(&self) -> usize
        ensures value { result ≡ self.now.cut }
        ensures some { 1 ≤ result }
    {
        self.cut
    }
}

/// Bytes in memory, read in pieces of at most `cut` bytes. The calls whose numbers were given fail,
/// and leave the bytes as they were. Calls are numbered from 1.
#[derive(Debug, Drop)]
pub struct MemSource {
    unread: Unread,
    plan: Plan,
    faults: FaultCount,
}

impl MemSource {
    ghost use Rattle.gic_io.specs.MemSource.{source_script, bytes_left, source_faults};

    /// The source of these bytes, of which a call gives at most `cut`, which is at least 1. The
    /// calls whose numbers are in `fails` fail. It takes no memory.
    pub fn of(bytes: Vec<u8>, fails: Vec<u64>, cut: usize) -> Self
        requires { 1 ≤ cut }
        ensures left { ⟦<MemSource as Source>⟧.left result ≡ Some bytes.items }
        ensures faults { ⟦<MemSource as Source>⟧.faults result ≡ 0 }
        ensures script { source_script result ≡ record { fails = fails.items; cut = cut; calls = 0 } }
    {
        MemSource {
            unread: Unread::of(bytes),
            plan: Plan::of(fails, cut),
            faults: FaultCount::zero(),
        }
    }

    /// How many calls have failed.
    pub fn faults(&self) -> u64
        ensures { result ≡ ⟦<MemSource as Source>⟧.faults self.now }
    {
        self.faults.get()
    }
}

impl Source for MemSource {
    ghost left = { λ source. Some source.unread };

    ghost faults = { λ source. source.faults.count };

    ghost use Rattle.gic_io.specs.MemSource.{source_script, bytes_left, source_faults};

    fn read(&mut self, buf: &mut [u8]) -> Result<usize, Failed>
        ensures called { source_script self.new ≡ after_call (source_script self.old) }
        ensures failed_where_given { IsErr result ↔ IsFailing (source_script self.new) }
        ensures failed_loses_none { OnErr result (bytes_left self.new ≡ bytes_left self.old) }
        ensures next { IfOk result (λ count.
            bytes_left self.old ≡ take count buf.new ++ bytes_left self.new) }
        ensures count { IfOk result (λ count.
            let most = min (source_script self.old).cut (length buf.old) in
            count ≡ min most (length (bytes_left self.old))) }
        ensures end { result ≡ Ok 0 → 0 < length buf.old → bytes_left self.new ≡ [] }
        ensures faults_where_ok { OnOk result (source_faults self.new ≡ source_faults self.old) }
        ensures faults_where_failed { OnErr result
            (source_faults self.new ≡ one_more (source_faults self.old)) }
    {
        if self.plan.begin_call() {
            return Err(self.faults.rise());
        }
        Ok(self.unread.read(buf, self.plan.cut()))
    }

    ghost in_range = { λ source. source.faults.in_range };
}

/// Bytes taken into memory, in pieces of at most `cut` bytes. The calls whose numbers were given
/// fail, as does one for whose bytes there is no memory. Calls are numbered from 1.
#[derive(Debug, Drop)]
pub struct MemSink {
    bytes: Vec<u8>,
    plan: Plan,
    faults: FaultCount,
}

impl MemSink {
    ghost use Rattle.gic_io.specs.MemSink.{sink_script, bytes_taken, sink_faults};

    /// A sink that has taken nothing, of which a call takes at most `cut` bytes, at least 1. The
    /// calls whose numbers are in `fails` fail. It takes no memory.
    pub fn of(alloc: Global, fails: Vec<u64>, cut: usize) -> Self
        requires { 1 ≤ cut }
        ensures taken { ⟦<MemSink as Sink>⟧.taken result ≡ Some [] }
        ensures faults { ⟦<MemSink as Sink>⟧.faults result ≡ 0 }
        ensures script { sink_script result ≡ record { fails = fails.items; cut = cut; calls = 0 } }
    {
        MemSink {
            bytes: Vec::new(alloc),
            plan: Plan::of(fails, cut),
            faults: FaultCount::zero(),
        }
    }

    /// The bytes taken so far, which this sink always tells.
    pub fn taken(&self) -> Option<&[u8]>
        ensures { IsSomeAnd result (λ bytes. ⟦<MemSink as Sink>⟧.taken self.now ≡ Some bytes.now) }
    {
        Some(self.bytes.as_slice())
    }

    /// How many calls have failed.
    pub fn faults(&self) -> u64
        ensures { result ≡ ⟦<MemSink as Sink>⟧.faults self.now }
    {
        self.faults.get()
    }
}

impl Sink for MemSink {
    ghost taken = { λ sink. Some sink.bytes.items };

    ghost faults = { λ sink. sink.faults.count };

    ghost use Rattle.gic_io.specs.MemSink.{sink_script, bytes_taken, sink_faults};

    fn write(&mut self, piece: &[u8]) -> Result<usize, Failed>
        ensures called { sink_script self.new ≡ after_call (sink_script self.old) }
        // A call may also fail for want of memory.
        ensures failed_where_given { IsFailing (sink_script self.new) → IsErr result }
        ensures failed_takes_none { OnErr result (bytes_taken self.new ≡ bytes_taken self.old) }
        ensures grew { IfOk result (λ count.
            bytes_taken self.new ≡ bytes_taken self.old ++ take count piece.now) }
        ensures count { IfOk result (λ count.
            count ≡ min (sink_script self.old).cut (length piece.now)) }
        ensures some { IfOk result (λ count. 0 < length piece.now → 0 < count) }
        ensures faults_where_ok { OnOk result (sink_faults self.new ≡ sink_faults self.old) }
        ensures faults_where_failed { OnErr result
            (sink_faults self.new ≡ one_more (sink_faults self.old)) }
    {
        let count = self.plan.cut().min(piece.len());
        if self.plan.begin_call() || self.bytes.extend_from_slice(&piece[..count]).is_err() {
            return Err(self.faults.rise());
        }
        Ok(count)
    }

    ghost in_range = { λ sink. sink.faults.in_range };
}
