//! What the GIC reads of the guest's memory is copied to its own before it reads it.
ghost use Rattle.std.specs.Prelude.{◌≡◌, ℕ, ◌+◌, ◌*◌, ◌<◌, ◌≤◌, ◌^◌, ◌==◌, ◌||◌, IsTrue, Option};
ghost use Rattle.ideal_guest.specs.Registers.{is_size};
ghost use Rattle.ideal_guest.specs.ItsCmd.Command.{decoded};
ghost use Rattle.ideal_guest.specs.Calls.{fits, has_frame, memory_at, queue_address as queue_place};
ghost use Rattle.ideal_guest.specs.Ideal.{word_at, view_of};
ghost use Rattle.ideal_guest.specs.Sound.{IsSound};
ghost use Rattle.guest_memory.specs.Bases.{address_of, base_in};
ghost use Rattle.guest_memory.specs.Wants.{Wanted, wanted_by};
ghost use Rattle.guest_memory.specs.Memory.{AreInQueue, AreInTable, InTurn, IsRead, put_at, IsFetched, word_found, words_at, read_by_words, table_of, is_first as is_first_of, put_one, put_all, AreCopied, for_first as own_doublewords, IsTableCopied, IsCommandCopied, AreCommandsCopied, IsPending, IsCopied, IsKeptBut};

use crate::access::Access;
use crate::base::{Base, Bases};
use crate::reads::{
    Commands, DOUBLEWORD, Doublewords, NO_DOUBLEWORDS, PendingTable, commands_taken,
    doublewords_read, table_read,
};
use ideal_guest::{
    Frame, GuestOp, IdealGuest, PlainWord, extract, queue_address, queue_decode, split,
};

/// How many doublewords a command has.
const WORDS: u32 = 4;
/// Where the bits of LPIs begin in a pending table.
pub(crate) const PENDING_OFFSET: u64 = 0x400;

/// The guest's memory, as a VMM gives it to a call.
pub trait GuestMemory {
    /// What a read of the doubleword at an address may answer: None where there is no memory. The guest may store meanwhile, so this is a relation.
    ghost may_read: { Self → ℕ → Option ℕ → Type 0 };

    /// The doubleword at an address, a multiple of 8, its first byte the least significant one. None where there is no memory.
    fn read(&self, address: u64) -> Option<u64>
        ensures { may_read self.now address result };
}

/// Stores a doubleword at a place of the GIC's own memory.
#[tactic(auto, using(crate::proofs::MemoryLemmas::put_kept, crate::proofs::MemoryLemmas::put_outside, crate::proofs::MemoryLemmas::kept_none))]
fn put(guest: &mut IdealGuest, place: u64, value: u64)
    requires { IsSound guest.old }
    ensures after { guest.new ≡ put_at place value guest.old }
    ensures kept { IsKeptBut guest.old guest.new }
{
    let Some(_) = split(place, DOUBLEWORD, guest.shape.ram) else {
        return;
    };
    guest.operate(
        0,
        GuestOp::Mem {
            frame: Frame::Ram,
            offset: place as u32,
            size: DOUBLEWORD,
            write: Some(value),
        },
    );
}

/// The doubleword at a place of the GIC's own memory; 0 outside of it.
fn doubleword_at(guest: &IdealGuest, place: u64) -> u64
    requires { IsSound guest.now }
    ensures { result ≡ memory_at guest.now.shape (view_of guest.now) place 8 }
{
    match split(place, DOUBLEWORD, guest.shape.ram) {
        Some(part) => extract(guest.word(PlainWord::Ram { index: part.index }), &part),
        None => 0,
    }
}

/// Reads a doubleword of the guest's memory, and stores it at a place of the GIC's own.
fn copy_doubleword<M: GuestMemory>(guest: &mut IdealGuest, memory: &M, from: u64, place: u64)
    requires { IsSound guest.old }
    ensures copied { IsRead (M.may_read memory.now) from (put_at place) guest.old guest.new }
    ensures kept { IsKeptBut guest.old guest.new }
{
    let value = memory.read(from).unwrap_or(0);
    put(guest, place, value);
}

/// The guest's address of a doubleword of the command at an offset in the queue.
fn word_source(bases: &Bases, offset: u32, number: u32) -> u64
    requires offset { offset < 1048576 }
    requires number { number < 4 }
    ensures { result ≡ address_of Base.Queue bases.now.queue + (offset + 8 * number) }
{
    Base::Queue.address(bases.queue) + u64::from(offset + DOUBLEWORD * number)
}

/// Where the ITS reads it.
fn word_place(guest: &IdealGuest, offset: u32, number: u32) -> u64
    requires sound { IsSound guest.now }
    requires offset { offset < 1048576 }
    requires number { number < 4 }
    ensures { result ≡ queue_place (word_at guest.now PlainWord.Cbaser) + (offset + 8 * number) }
{
    queue_address(guest.word(PlainWord::Cbaser)) + u64::from(offset + DOUBLEWORD * number)
}

/// Copies the doublewords of the command at an offset in the queue.
fn copy_words<M: GuestMemory>(guest: &mut IdealGuest, memory: &M, bases: &Bases, offset: u32)
    requires sound { IsSound guest.old }
    requires offset { offset < 1048576 }
    ensures copied { InTurn (IsFetched (M.may_read memory.now) bases.now offset) 4 guest.old guest.new }
    ensures kept { IsKeptBut guest.old guest.new }
{
    for number in 0..WORDS {
        let from = word_source(bases, offset, number);
        let place = word_place(guest, offset, number);
        copy_doubleword(guest, memory, from, place);
    }
}

/// A doubleword of the command at an offset, as the ITS finds it.
fn word(guest: &IdealGuest, offset: u32, number: u32) -> u64
    requires sound { IsSound guest.now }
    requires offset { offset < 1048576 }
    requires number { number < 4 }
    ensures { result ≡ word_found guest.now offset number }
{
    doubleword_at(guest, word_place(guest, offset, number))
}

/// The doublewords of the command that the ITS finds at an offset.
fn words(guest: &IdealGuest, offset: u32) -> [u64; 4]
    requires sound { IsSound guest.now }
    requires offset { offset < 1048576 }
    ensures { result ≡ words_at guest.now offset }
{
    [
        word(guest, offset, 0),
        word(guest, offset, 1),
        word(guest, offset, 2),
        word(guest, offset, 3),
    ]
}

/// The guest's address of the configuration table of a vCPU.
pub(crate) fn table(bases: &Bases, vcpu: u32) -> u64
    requires { vcpu < 32 }
    ensures value { result ≡ table_of bases.now vcpu }
    ensures bound { result < 2 ^ 52 }
{
    let base = Base::Properties { vcpu };
    base.address(bases.get(base))
}

/// Whether a vCPU has the table, or others were found to.
fn is_shared_with(bases: &Bases, vcpu: u32, address: u64, is_shared: bool) -> bool
    requires { vcpu < 32 }
    ensures { result ≡ (is_shared || table_of bases.now vcpu == address) }
{
    is_shared || table(bases, vcpu) == address
}

/// Whether no vCPU before this one has the same table.
pub(crate) fn is_first(bases: &Bases, vcpu: u32) -> bool
    requires { vcpu < 32 }
    ensures { result ≡ is_first_of bases.now vcpu }
{
    let address = table(bases, vcpu);
    let mut is_shared = false;
    for other in 0..vcpu {
        let more = is_shared_with(bases, other, address, is_shared);
        is_shared = more;
    }
    !is_shared
}

/// Stores a doubleword in the place of a vCPU, if that stands for this table.
fn put_in_one(guest: &mut IdealGuest, bases: &Bases, vcpu: u32, address: u64, at: u64, value: u64)
    requires sound { IsSound guest.old }
    requires there { vcpu < guest.old.shape.vcpus }
    requires at { at < 2 ^ 52 }
    ensures after { guest.new ≡ put_one bases.now address at value vcpu guest.old }
    ensures kept { IsKeptBut guest.old guest.new }
{
    if table(bases, vcpu) != address {
        return;
    }
    let base = Base::Properties { vcpu };
    let place = base.address(guest.word(PlainWord::Propbaser { vcpu })) + at;
    put(guest, place, value);
}

/// Stores a doubleword in each place that stands for a table.
fn put_in_all(guest: &mut IdealGuest, bases: &Bases, address: u64, at: u64, value: u64)
    requires sound { IsSound guest.old }
    requires at { at < 2 ^ 52 }
    ensures after { guest.new ≡ put_all bases.now address at value guest.old }
    ensures kept { IsKeptBut guest.old guest.new }
{
    for vcpu in 0..guest.shape.vcpus {
        put_in_one(guest, bases, vcpu, address, at, value);
    }
}

/// Reads a doubleword of a table, and stores it in each place that stands for that.
fn copy_shared<M: GuestMemory>(
    guest: &mut IdealGuest,
    memory: &M,
    bases: &Bases,
    address: u64,
    at: u64,
)
    requires sound { IsSound guest.old }
    requires address { address < 2 ^ 52 }
    requires at { at < 2 ^ 52 }
    ensures copied { IsRead (M.may_read memory.now) (address + at) (put_all bases.now address at) guest.old guest.new }
    ensures kept { IsKeptBut guest.old guest.new }
{
    let value = memory.read(address + at).unwrap_or(0);
    put_in_all(guest, bases, address, at, value);
}

/// How far from the start of a table a doubleword is.
fn offset_at(wanted: Doublewords, number: u32) -> u64
    requires table { AreInTable wanted }
    requires number { number < wanted.count }
    ensures value { result ≡ 8 * (wanted.first + number) }
    ensures bound { result < 2 ^ 52 }
{
    u64::from(DOUBLEWORD * (wanted.first + number))
}

/// Copies doublewords of a table to all places that stand for it.
fn copy_table<M: GuestMemory>(
    guest: &mut IdealGuest,
    memory: &M,
    bases: &Bases,
    address: u64,
    wanted: Doublewords,
)
    requires sound { IsSound guest.old }
    requires address { address < 2 ^ 52 }
    requires table { AreInTable wanted }
    ensures copied { AreCopied (M.may_read memory.now) bases.now wanted address guest.old guest.new }
    ensures kept { IsKeptBut guest.old guest.new }
{
    for number in 0..wanted.count {
        copy_shared(guest, memory, bases, address, offset_at(wanted, number));
    }
}

/// What is copied by a vCPU: nothing where a vCPU before it has the same table.
fn for_first(bases: &Bases, wanted: Doublewords, vcpu: u32) -> Doublewords
    requires vcpu { vcpu < 32 }
    requires table { AreInTable wanted }
    ensures value { result ≡ own_doublewords bases.now wanted vcpu }
    ensures table { AreInTable result }
{
    if is_first(bases, vcpu) {
        wanted
    } else {
        NO_DOUBLEWORDS
    }
}

/// Copies doublewords of the table of a vCPU, if no vCPU before it has the same.
fn copy_first<M: GuestMemory>(
    guest: &mut IdealGuest,
    memory: &M,
    bases: &Bases,
    vcpu: u32,
    wanted: Doublewords,
)
    requires sound { IsSound guest.old }
    requires there { vcpu < guest.old.shape.vcpus }
    requires table { AreInTable wanted }
    ensures copied { IsTableCopied (M.may_read memory.now) bases.now wanted vcpu guest.old guest.new }
    ensures kept { IsKeptBut guest.old guest.new }
{
    let own = for_first(bases, wanted, vcpu);
    let address = table(bases, vcpu);
    copy_table(guest, memory, bases, address, own);
}

/// Copies doublewords of each table, an equal one once.
fn copy_tables<M: GuestMemory>(
    guest: &mut IdealGuest,
    memory: &M,
    bases: &Bases,
    wanted: Doublewords,
)
    requires sound { IsSound guest.old }
    requires table { AreInTable wanted }
    ensures copied { InTurn (IsTableCopied (M.may_read memory.now) bases.now wanted) guest.old.shape.vcpus guest.old guest.new }
    ensures kept { IsKeptBut guest.old guest.new }
{
    for vcpu in 0..guest.shape.vcpus {
        copy_first(guest, memory, bases, vcpu, wanted);
    }
}

/// What the command at an offset in the queue can read of a table.
fn wanted_at(guest: &IdealGuest, offset: u32) -> Doublewords
    requires sound { IsSound guest.now }
    requires offset { offset < 1048576 }
    ensures value { result ≡ read_by_words (decoded (words_at guest.now offset)) guest.now }
    ensures table { AreInTable result }
{
    match queue_decode(words(guest, offset)) {
        Ok(command) => doublewords_read(guest, &command),
        Err(_) => NO_DOUBLEWORDS,
    }
}

/// Copies the command at an offset in the queue, and what it can read.
fn copy_command<M: GuestMemory>(guest: &mut IdealGuest, memory: &M, bases: &Bases, offset: u32)
    requires sound { IsSound guest.old }
    requires offset { offset < 1048576 }
    ensures copied { IsCommandCopied (M.may_read memory.now) bases.now offset guest.old guest.new }
    ensures kept { IsKeptBut guest.old guest.new }
{
    copy_words(guest, memory, bases, offset);
    let wanted = wanted_at(guest, offset);
    copy_tables(guest, memory, bases, wanted);
}

/// Copies commands, each with what it can read.
fn copy_commands<M: GuestMemory>(
    guest: &mut IdealGuest,
    memory: &M,
    bases: &Bases,
    commands: &Commands,
)
    requires sound { IsSound guest.old }
    requires queue { AreInQueue commands.now }
    ensures copied { AreCommandsCopied (M.may_read memory.now) bases.now commands.now guest.old guest.new }
    ensures kept { IsKeptBut guest.old guest.new }
{
    for number in 0..commands.count {
        copy_command(guest, memory, bases, commands.offset_of(number));
    }
}

/// The guest's address of a doubleword of the pending table of a vCPU.
fn pending_source(bases: &Bases, vcpu: u32, number: u32) -> u64
    requires vcpu { vcpu < 32 }
    requires number { number < 64 }
    ensures { result ≡ address_of (Base.Pending vcpu) (base_in bases.now (Base.Pending vcpu)) + (0x400 + 8 * number) }
{
    let base = Base::Pending { vcpu };
    base.address(bases.get(base)) + (PENDING_OFFSET + u64::from(DOUBLEWORD * number))
}

/// Where the GIC reads it.
fn pending_place(guest: &IdealGuest, vcpu: u32, number: u32) -> u64
    requires sound { IsSound guest.now }
    requires vcpu { vcpu < guest.now.shape.vcpus }
    requires number { number < 64 }
    ensures { result ≡ address_of (Base.Pending vcpu) (word_at guest.now (PlainWord.Pendbaser vcpu)) + (0x400 + 8 * number) }
{
    let stored = guest.word(PlainWord::Pendbaser { vcpu });
    Base::Pending { vcpu }.address(stored) + (PENDING_OFFSET + u64::from(DOUBLEWORD * number))
}

/// Copies doublewords of a pending table.
fn copy_pending<M: GuestMemory>(
    guest: &mut IdealGuest,
    memory: &M,
    bases: &Bases,
    pending: PendingTable,
)
    requires sound { IsSound guest.old }
    requires there { pending.vcpu < guest.old.shape.vcpus }
    requires few { pending.count ≤ 64 }
    ensures copied { IsPending (M.may_read memory.now) bases.now pending guest.old guest.new }
    ensures kept { IsKeptBut guest.old guest.new }
{
    for number in 0..pending.count {
        let from = pending_source(bases, pending.vcpu, number);
        let place = pending_place(guest, pending.vcpu, number);
        copy_doubleword(guest, memory, from, place);
    }
}

/// Copies what an access makes the GIC read of the guest's memory.
pub fn copy<M: GuestMemory>(guest: &mut IdealGuest, memory: &M, bases: &Bases, access: &Access)
    requires sound { IsSound guest.old }
    requires size { IsTrue (is_size access.now.size) }
    requires fits { IsTrue (fits access.now.size access.now.write) }
    requires frame { IsTrue (has_frame guest.old.shape access.now.frame) }
    ensures copied { IsCopied (Wanted (wanted_by guest.old bases.now access.now) (M.may_read memory.now)) bases.now access.now guest.old guest.new }
    ensures kept { IsKeptBut guest.old guest.new }
{
    let commands = commands_taken(guest, access);
    let pending = table_read(guest, access);
    copy_commands(guest, memory, bases, &commands);
    copy_pending(guest, memory, bases, pending);
}
