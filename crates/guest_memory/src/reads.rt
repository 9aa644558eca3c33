//! What the GIC may read of the guest's memory.
ghost use Rattle.std.specs.Prelude.{◌≡◌, ◌<◌, ◌≤◌, ◌%◌, ◌^◌, IsTrue, false};
ghost use Rattle.ideal_guest.specs.Words.{IsShape};
ghost use Rattle.ideal_guest.specs.Registers.{is_size, enable_lpis_after as enable_lpis_after_of};
ghost use Rattle.ideal_guest.specs.Calls.{fits, has_frame};
ghost use Rattle.ideal_guest.specs.Sound.{IsSound};
ghost use Rattle.guest_memory.specs.Memory.{AreInQueue, AreInTable, commands_to, commands_if, commands_written, commands_after, commands_of, command_offset, doubleword_of, all_doublewords, read_by, is_read_as_set, reads_pending_at, pending_count, pending_of};

use crate::access::Access;
use ideal_guest::{
    COMMAND_BYTES, Command, Frame, GuestShape, IdealGuest, ItsReg, ItsRegRef, PlainWord, RedistReg,
    RedistRegRef, call_its_access, enable_lpis_after, enabled_in, has_bit, offset_in, queue_bytes,
    redist_access, retries,
};

/// The first LPI.
pub(crate) const FIRST_LPI: u32 = 8192;
/// The bytes of a doubleword.
pub(crate) const DOUBLEWORD: u32 = 8;
/// GITS_CBASER.Valid.
const VALID: u32 = 63;
/// GICR_PENDBASER.PTZ.
const TABLE_ZERO: u32 = 62;
/// The bytes of a queue's page.
const PAGE_BYTES: u32 = 4096;

/// Commands that stand one after the other in the queue, round its end.
#[derive(Clone, Copy, Debug, PartialEq, Eq)]
pub struct Commands {
    /// Where the first is, in bytes from the start of the queue.
    pub offset: u32,
    /// How many there are.
    pub count: u32,
    /// The bytes of the queue.
    pub bytes: u32,
}

/// No commands.
const NO_COMMANDS: Commands = Commands {
    offset: 0,
    count: 0,
    bytes: PAGE_BYTES,
};

impl Commands {
    /// Where the command of a number from 0 is.
    pub(crate) fn offset_of(&self, number: u32) -> u32
        requires queue { AreInQueue self.now }
        requires number { number < self.now.count }
        ensures value { result ≡ command_offset self.now number }
        ensures within { result < 1048576 }
    {
        (self.offset + COMMAND_BYTES * number) % self.bytes
    }
}

/// The low half of a value.
fn low(value: u64) -> u32
    ensures { result ≡ value % 2 ^ 32 }
{
    (value % (1 << 32)) as u32
}

/// The commands from GITS_CREADR to the offset in a value for GITS_CWRITER.
fn commands_up_to(guest: &IdealGuest, value: u64) -> Commands
    requires { IsSound guest.now }
    ensures value { result ≡ commands_to guest.now value }
    ensures queue { AreInQueue result }
{
    let bytes = queue_bytes(guest.word(PlainWord::Cbaser));
    let end = offset_in(value) as u32 + bytes;
    Commands {
        offset: guest.offset % bytes,
        count: end.saturating_sub(guest.offset) % bytes / COMMAND_BYTES,
        bytes,
    }
}

/// The same, where the ITS takes commands.
fn commands_where(guest: &IdealGuest, is_enabled: bool, is_stalled: bool, value: u64) -> Commands
    requires { IsSound guest.now }
    ensures value { result ≡ commands_if is_enabled is_stalled value guest.now }
    ensures queue { AreInQueue result }
{
    if is_enabled && has_bit(guest.word(PlainWord::Cbaser), VALID) && !is_stalled {
        commands_up_to(guest, value)
    } else {
        NO_COMMANDS
    }
}

/// The commands that a write of GITS_CWRITER takes.
fn commands_at_write(guest: &IdealGuest, value: u64) -> Commands
    requires { IsSound guest.now }
    ensures value { result ≡ commands_written value guest.now }
    ensures queue { AreInQueue result }
{
    let cbaser = guest.word(PlainWord::Cbaser);
    if offset_in(value) >= u64::from(queue_bytes(cbaser)) {
        return NO_COMMANDS;
    }
    let is_stalled = guest.is_stalled && !retries(cbaser, value);
    commands_where(guest, guest.is_its_enabled(), is_stalled, value)
}

/// The commands that an access takes.
pub(crate) fn commands_taken(guest: &IdealGuest, access: &Access) -> Commands
    requires sound { IsSound guest.now }
    requires size { IsTrue (is_size access.now.size) }
    requires fits { IsTrue (fits access.now.size access.now.write) }
    ensures value { result ≡ commands_of access.now access.now.frame guest.now }
    ensures queue { AreInQueue result }
{
    let (Frame::Its, Some(value)) = (access.frame, access.write) else {
        return NO_COMMANDS;
    };
    if guest.shape.lpis == 0 {
        return NO_COMMANDS;
    }
    match call_its_access(access.offset, access.size, access.write) {
        ItsRegRef::Plain {
            reg: ItsReg::Ctlr,
            ..
        } => {
            let is_enabled = enabled_in(low(value));
            commands_where(
                guest,
                is_enabled,
                guest.is_stalled,
                guest.word(PlainWord::Cwriter),
            )
        }
        ItsRegRef::Plain {
            reg: ItsReg::Cwriter,
            half,
        } => commands_at_write(guest, half.written(guest.word(PlainWord::Cwriter), value)),
        _ => NO_COMMANDS,
    }
}

/// Doublewords of a configuration table, one after the other.
#[derive(Clone, Copy, Debug, PartialEq, Eq)]
pub struct Doublewords {
    /// The number of the first, from 0.
    pub first: u32,
    /// How many there are.
    pub count: u32,
}

/// No doublewords.
pub(crate) const NO_DOUBLEWORDS: Doublewords = Doublewords { first: 0, count: 0 };

/// The doubleword that has the byte of an LPI, if there is the LPI.
fn one_doubleword(shape: &GuestShape, id: u32) -> Doublewords
    requires { IsShape shape.now }
    ensures value { result ≡ doubleword_of shape.now id }
    ensures table { AreInTable result }
{
    match id.checked_sub(FIRST_LPI) {
        Some(number) if number < shape.lpis => Doublewords {
            first: number / DOUBLEWORD,
            count: 1,
        },
        _ => NO_DOUBLEWORDS,
    }
}

/// Those that have the bytes of all LPIs.
pub(crate) fn every_doubleword(shape: &GuestShape) -> Doublewords
    requires { IsShape shape.now }
    ensures value { result ≡ all_doublewords shape.now }
    ensures table { AreInTable result }
{
    Doublewords {
        first: 0,
        count: (shape.lpis + DOUBLEWORD - 1) / DOUBLEWORD,
    }
}

/// Those that have what a command can read.
pub(crate) fn doublewords_read(guest: &IdealGuest, command: &Command) -> Doublewords
    requires { IsSound guest.now }
    ensures value { result ≡ read_by command.now guest.now }
    ensures table { AreInTable result }
{
    match *command {
        Command::Mapti { id, .. } => one_doubleword(&guest.shape, id),
        Command::Mapi { event, .. } => one_doubleword(&guest.shape, event),
        Command::Inv { device, event } => match guest.tables.find(device, event) {
            Some((lpi, _)) => one_doubleword(&guest.shape, lpi),
            None => NO_DOUBLEWORDS,
        },
        Command::Invall { .. } | Command::Movall { .. } => every_doubleword(&guest.shape),
        _ => NO_DOUBLEWORDS,
    }
}

/// Whether a value for GICR_CTLR sets EnableLPIs.
fn sets_lpis(shape: &GuestShape, value: u64) -> bool
    ensures { result ≡ enable_lpis_after_of shape.now false value }
{
    enable_lpis_after(shape, false, low(value))
}

/// Whether the pending table of a vCPU is read as EnableLPIs is set.
fn reads_as_set(guest: &IdealGuest, vcpu: u32) -> bool
    requires sound { IsSound guest.now }
    requires there { vcpu < guest.now.shape.vcpus }
    ensures { result ≡ is_read_as_set vcpu guest.now }
{
    !guest.cpu(vcpu).lpis && !has_bit(guest.word(PlainWord::Pendbaser { vcpu }), TABLE_ZERO)
}

/// Whether an access of a vCPU's redistributor makes the GIC read the vCPU's pending table.
fn reads_table(guest: &IdealGuest, vcpu: u32, access: &Access) -> bool
    requires sound { IsSound guest.now }
    requires there { vcpu < guest.now.shape.vcpus }
    requires size { IsTrue (is_size access.now.size) }
    requires fits { IsTrue (fits access.now.size access.now.write) }
    ensures { result ≡ reads_pending_at vcpu access.now guest.now }
{
    let Some(value) = access.write else {
        return false;
    };
    match redist_access(access.offset, access.size, access.write) {
        RedistRegRef::Plain {
            reg: RedistReg::Ctlr,
            ..
        } => sets_lpis(&guest.shape, value) && reads_as_set(guest, vcpu),
        _ => false,
    }
}

/// The pending table of a vCPU that is read.
#[derive(Clone, Copy, Debug, PartialEq, Eq)]
pub struct PendingTable {
    pub vcpu: u32,
    /// How many doublewords have the bits of LPIs; 0 where no table is read.
    pub count: u32,
}

/// None is read.
const NO_TABLE: PendingTable = PendingTable { vcpu: 0, count: 0 };

/// How many LPIs have their bits in one doubleword of a pending table.
const PENDING_BITS: u32 = 64;

/// How many doublewords of a pending table have the bits of LPIs.
fn pending_doublewords(shape: &GuestShape) -> u32
    requires { IsShape shape.now }
    ensures value { result ≡ pending_count shape.now }
    ensures few { result ≤ 64 }
{
    (shape.lpis + PENDING_BITS - 1) / PENDING_BITS
}

/// The pending table that an access makes the GIC read.
pub(crate) fn table_read(guest: &IdealGuest, access: &Access) -> PendingTable
    requires sound { IsSound guest.now }
    requires size { IsTrue (is_size access.now.size) }
    requires fits { IsTrue (fits access.now.size access.now.write) }
    requires frame { IsTrue (has_frame guest.now.shape access.now.frame) }
    ensures value { result ≡ pending_of access.now access.now.frame guest.now }
    ensures few { result.count ≤ 64 }
    ensures there { result.vcpu < guest.now.shape.vcpus }
{
    match access.frame {
        Frame::Redist { vcpu } if reads_table(guest, vcpu, access) => PendingTable {
            vcpu,
            count: pending_doublewords(&guest.shape),
        },
        _ => NO_TABLE,
    }
}
