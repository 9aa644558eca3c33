//! Which events a guest can have.
ghost use Rattle.std.specs.Prelude.{◌≡◌, ◌<◌, ◌^◌, ◌↔◌, ◌&&◌, IsTrue, nat_lt};
ghost use Rattle.history_check.specs.Registers.{part_bits as part_bits_of, has_part as has_part_in};
ghost use Rattle.history_check.specs.Words.{IsShape, has_interrupt};
ghost use Rattle.history_check.specs.Calls.{has_wire, is_usable as is_usable_for, has_plain as has_plain_in, has_shown_part as has_shown_part_in, is_touch_of, is_priority as is_priority_of, is_lpi as is_lpi_of, CanTouch, has_place as has_place_in, is_stored as is_stored_in, IsOffset, CanHappen};

use history_check::{
    Event, GuestShape, IccReg, Key, Kind, Place, PlainWord, QueueChange, SGI_COUNT, Touching,
    key_of, part_bits,
};

/// The bytes of a command.
const COMMAND_BYTES: u32 = 32;
/// The bytes of the largest queue.
const MAX_QUEUE_BYTES: u32 = 0x10_0000;
/// The bytes of a word of the guest's memory.
const WORD_BYTES: u32 = 8;
/// The lowest priority: the largest value.
const MAX_PRIORITY: u8 = 248;
/// Priorities are multiples of this.
const PRIORITY_STEP: u8 = 8;

/// Whether the guest has an interrupt.
fn has(shape: &GuestShape, key: Key) -> bool
    requires { IsShape shape.now }
    ensures { result ≡ has_interrupt shape.now key }
{
    match key {
        Key::Private { vcpu, id } => key_of(id, vcpu, shape) == Some(key),
        Key::Spi(id) | Key::Lpi(id) => key_of(id, 0, shape) == Some(key),
    }
}

/// Whether the guest has an interrupt with a wire: a PPI, or an SPI.
fn is_wired(shape: &GuestShape, key: Key) -> bool
    requires { IsShape shape.now }
    ensures { result ≡ (has_wire key && has_interrupt shape.now key) }
{
    let wired = match key {
        Key::Private { id, .. } => id >= SGI_COUNT,
        Key::Spi(_) => true,
        Key::Lpi(_) => false,
    };
    wired && has(shape, key)
}

/// Whether a register can be written, where there is a value to write, or else read.
fn is_usable(reg: IccReg, write: Option<u64>) -> bool
    ensures { result ≡ is_usable_for reg write }
{
    match write {
        Some(_) => reg.is_writable(),
        None => reg.is_readable(),
    }
}

/// Whether the guest has a plain word.
fn has_plain(shape: &GuestShape, word: PlainWord) -> bool
    ensures { result ≡ has_plain_in shape.now word }
{
    match word {
        PlainWord::Ram { index } => index < shape.ram / WORD_BYTES,
        PlainWord::Propbaser { vcpu } | PlainWord::Pendbaser { vcpu } => vcpu < shape.vcpus,
        _ => true,
    }
}

/// Whether the guest has a place.
fn has_place(shape: &GuestShape, place: Place) -> bool
    ensures { result ≡ has_place_in shape.now place }
{
    match place {
        Place::Word { word } => has_plain(shape, word),
        Place::Lpis { vcpu } => vcpu < shape.vcpus,
        Place::Queue | Place::Ctlr => true,
    }
}

/// Whether registers of a kind have a part of an interrupt that they show.
fn has_shown_part(kind: Kind, key: Key) -> bool
    ensures { result ≡ has_shown_part_in kind key }
{
    kind != Kind::Routing || matches!(key, Key::Spi(_))
}

/// Whether registers of a kind have a part of an interrupt that they write.
fn has_part(kind: Kind, key: Key) -> bool
    ensures { result ≡ has_part_in kind key }
{
    match (kind, key) {
        (Kind::Routing, _) => matches!(key, Key::Spi(_)),
        (Kind::SetPending | Kind::ClearPending, _) => true,
        _ => !matches!(key, Key::Lpi(_)),
    }
}

/// Whether a value has no more bits than a part of this kind.
fn fits_part(kind: Kind, value: u64) -> bool
    ensures { result ≡ nat_lt value (2 ^ part_bits_of kind) }
{
    let bits = part_bits(kind);
    bits == u64::BITS || value < 1 << bits
}

/// Whether a number is a priority: a multiple of 8, up to 248.
fn is_priority(prio: u8) -> bool
    ensures { result ≡ is_priority_of prio }
{
    prio % PRIORITY_STEP == 0 && prio <= MAX_PRIORITY
}

/// Whether an interrupt is an LPI.
fn is_lpi(key: Key) -> bool
    ensures { result ≡ is_lpi_of key }
{
    matches!(key, Key::Lpi(_))
}

/// Whether a touch is one of an interrupt, with values in range.
fn is_touch(shape: &GuestShape, key: Key, touching: Touching) -> bool
    ensures { result ≡ is_touch_of shape.now key touching }
{
    match touching {
        Touching::Read { kind } => has_shown_part(kind, key),
        Touching::Register { kind, value } => has_part(kind, key) && fits_part(kind, value),
        Touching::Enables { .. } => true,
        Touching::MapLpi { target, prio, .. } => {
            is_lpi(key) && target < shape.vcpus && is_priority(prio)
        }
        Touching::Retarget { target } => {
            is_lpi(key) && target.is_none_or(|vcpu| vcpu < shape.vcpus)
        }
        Touching::Configure { prio, .. } => is_lpi(key) && is_priority(prio),
        Touching::Forget => is_lpi(key),
    }
}

/// Whether the guest has an interrupt, and a touch is one of it.
fn can_touch(shape: &GuestShape, key: Key, touching: Touching) -> bool
    requires { IsShape shape.now }
    ensures { IsTrue result ↔ CanTouch shape.now key touching }
{
    has(shape, key) && is_touch(shape, key, touching)
}

/// Whether the guest has an interrupt and a vCPU.
fn has_both(shape: &GuestShape, key: Key, vcpu: u32) -> bool
    requires { IsShape shape.now }
    ensures { IsTrue result ↔ (IsTrue (has_interrupt shape.now key) × (vcpu < shape.now.vcpus)) }
{
    has(shape, key) && vcpu < shape.vcpus
}

/// Whether the guest has a vCPU, which can use a register so.
fn can_access(shape: &GuestShape, vcpu: u32, reg: IccReg, write: Option<u64>) -> bool
    ensures { IsTrue result ↔ ((vcpu < shape.now.vcpus) × IsTrue (is_usable_for reg write)) }
{
    vcpu < shape.vcpus && is_usable(reg, write)
}

/// Whether the guest has a plain word that is stored for itself, as any but the number of a fault.
fn can_put(shape: &GuestShape, word: PlainWord) -> bool
    ensures { IsTrue result ↔ (IsTrue (has_plain_in shape.now word) × IsTrue (is_stored_in word)) }
{
    has_plain(shape, word) && word != PlainWord::Fault
}

/// Whether an offset is that of a command in the largest queue.
fn is_offset(offset: u32) -> bool
    ensures { IsTrue result ↔ IsOffset offset }
{
    offset % COMMAND_BYTES == 0 && offset < MAX_QUEUE_BYTES
}

/// Whether the queue can change so.
fn can_change(offset: u32, change: QueueChange) -> bool
    ensures { (shape : GuestShape) → IsTrue result ↔ CanHappen shape (Event.Queue offset change) }
{
    let _ = change;
    is_offset(offset)
}

/// Whether a guest can have an event: what it names is there, and its values are in range.
pub fn can_happen(shape: &GuestShape, event: &Event) -> bool
    requires { IsShape shape.now }
    ensures { IsTrue result ↔ CanHappen shape.now event.now }
{
    match *event {
        Event::Raise { key } => has(shape, key),
        Event::Up { key } | Event::Down { key } => is_wired(shape, key),
        Event::Enable { vcpu } => vcpu < shape.vcpus,
        Event::Touch { key, touching } => can_touch(shape, key, touching),
        Event::Reach { key, vcpu } | Event::Take { key, vcpu } | Event::Leave { key, vcpu } => {
            has_both(shape, key, vcpu)
        }
        Event::Cpu { vcpu, reg, write } => can_access(shape, vcpu, reg, write),
        Event::Read { place } => has_place(shape, place),
        Event::Put { word, .. } => can_put(shape, word),
        Event::Queue { offset, change } => can_change(offset, change),
        Event::CtlrBegin { .. } | Event::CtlrEnd | Event::ItsBegin | Event::ItsEnd => true,
    }
}
