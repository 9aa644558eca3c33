//! Where the guest has what an access may make the GIC read.
ghost use Rattle.std.specs.Prelude.{◌≡◌, ◌*◌, ◌<◌, ◌≤◌, IsTrue, map};
ghost use Rattle.std.specs.List.{range_with_len};
ghost use Rattle.ideal_guest.specs.Registers.{is_size};
ghost use Rattle.ideal_guest.specs.Calls.{fits, has_frame};
ghost use Rattle.ideal_guest.specs.Sound.{IsSound};
ghost use Rattle.guest_memory.specs.Memory.{AreInQueue};
ghost use Rattle.guest_memory.specs.Wants.{command_spans, table_span, pending_span, wanted_by, no_wants, spans_in, bytes_in, most_wanted};

use crate::access::Access;
use crate::base::{Base, Bases, VCPUS};
use crate::memory::{PENDING_OFFSET, is_first, table};
use crate::reads::{
    Commands, DOUBLEWORD, PendingTable, commands_taken, every_doubleword, table_read,
};
use ideal_guest::{COMMAND_BYTES, IdealGuest};

/// Bytes of the guest's memory, from an address on. Where there are 0 nothing is wanted.
#[derive(Clone, Copy, Debug, PartialEq, Eq, Hash)]
pub struct Span {
    pub address: u64,
    pub bytes: u64,
}

/// Nothing.
const NO_SPAN: Span = Span {
    address: 0,
    bytes: 0,
};

/// Where the guest has what an access may make the GIC read. Each span begins and ends at a multiple of 8.
#[derive(Clone, Copy, Debug, PartialEq, Eq)]
pub struct Wants {
    /// The commands from GITS_CREADR to GITS_CWRITER, in two spans where they go round the queue's end.
    pub commands: [Span; 2],
    /// The bytes of LPIs in the configuration table of each vCPU; one that several have is told of the first of them.
    pub tables: [Span; VCPUS],
    /// The bits of LPIs in the pending table of a vCPU.
    pub pending: Span,
}

/// Nothing.
pub const NO_WANTS: Wants = Wants {
    commands: [NO_SPAN; 2],
    tables: [NO_SPAN; VCPUS],
    pending: NO_SPAN,
};

/// How many spans the commands have.
const COMMANDS: usize = 2;
/// How many spans there are in all.
pub const SPANS: usize = 35;
/// The most bytes that all spans of an access have together: the largest queue, a configuration table of 4096 LPIs for each of 32 vCPUs, and their bits
/// in a pending table.
pub const MOST_WANTED: usize = 0x10_0000 + 32 * 4096 + 512;

impl Wants {
    /// All spans: the commands', then the tables', then the pending table's.
    pub fn spans(self) -> [Span; SPANS]
        ensures { result ≡ spans_in self }
    {
        let mut spans = [self.pending; SPANS];
        for place in 0..COMMANDS {
            spans[place] = self.commands[place];
        }
        for place in 0..VCPUS {
            spans[COMMANDS + place] = self.tables[place];
        }
        spans
    }
}

/// Where the commands are.
fn spans_of(bases: &Bases, commands: &Commands) -> [Span; 2]
    requires { AreInQueue commands.now }
    ensures value { result ≡ command_spans bases.now commands.now }
    ensures few { bytes_in result ≤ 0x100000 }
{
    let queue = Base::Queue.address(bases.queue);
    let all = COMMAND_BYTES * commands.count;
    let first = all.min(commands.bytes.saturating_sub(commands.offset));
    [
        Span {
            address: queue + u64::from(commands.offset),
            bytes: u64::from(first),
        },
        Span {
            address: queue,
            bytes: u64::from(all - first),
        },
    ]
}

/// The bytes of LPIs in the configuration table of a vCPU, if commands are taken and it is the first that has this one.
fn span_of_table(guest: &IdealGuest, bases: &Bases, commands: &Commands, vcpu: u32) -> Span
    requires sound { IsSound guest.now }
    requires vcpu { vcpu < 32 }
    ensures { result ≡ table_span guest.now bases.now commands.now vcpu }
{
    if commands.count == 0 || vcpu >= guest.shape.vcpus || !is_first(bases, vcpu) {
        return NO_SPAN;
    }
    let every = every_doubleword(&guest.shape);
    Span {
        address: table(bases, vcpu),
        bytes: u64::from(DOUBLEWORD * every.count),
    }
}

/// Those of each vCPU.
fn spans_of_tables(guest: &IdealGuest, bases: &Bases, commands: &Commands) -> [Span; VCPUS]
    requires { IsSound guest.now }
    ensures value { result ≡ map (table_span guest.now bases.now commands.now) (range_with_len 0 32) }
    ensures few { bytes_in result ≤ 32 * 4096 }
{
    let mut spans = [NO_SPAN; VCPUS];
    for vcpu in 0..32 {
        spans[vcpu as usize] = span_of_table(guest, bases, commands, vcpu);
    }
    spans
}

/// The bits of LPIs in a pending table.
fn span_of_pending(bases: &Bases, pending: PendingTable) -> Span
    requires there { pending.vcpu < 32 }
    requires few { pending.count ≤ 64 }
    ensures value { result ≡ pending_span bases.now pending }
    ensures few { result.bytes ≤ 512 }
{
    if pending.count == 0 {
        return NO_SPAN;
    }
    let base = Base::Pending { vcpu: pending.vcpu };
    Span {
        address: base.address(bases.get(base)) + PENDING_OFFSET,
        bytes: u64::from(DOUBLEWORD * pending.count),
    }
}

/// Where the guest has what an access of a register may make the GIC read, before [`copy`](crate::copy). Of the configuration tables these are the bytes
/// of all LPIs, since the commands, which tell what is read of them, are not there yet.
pub fn wanted(guest: &IdealGuest, bases: &Bases, access: &Access) -> Wants
    requires sound { IsSound guest.now }
    requires size { IsTrue (is_size access.now.size) }
    requires fits { IsTrue (fits access.now.size access.now.write) }
    requires frame { IsTrue (has_frame guest.now.shape access.now.frame) }
    ensures value { result ≡ wanted_by guest.now bases.now access.now }
    ensures few { bytes_in (spans_in result) ≤ most_wanted }
{
    let commands = commands_taken(guest, access);
    Wants {
        commands: spans_of(bases, &commands),
        tables: spans_of_tables(guest, bases, &commands),
        pending: span_of_pending(bases, table_read(guest, access)),
    }
}
