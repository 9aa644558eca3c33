//! One list register, as fields and as a word.
ghost use Rattle.std.specs.Prelude.{◌≡◌, IsTrue};
ghost use Rattle.gic_lr.specs.Entry.{IsEntry, packed, unpacked, state_number, state_at, has_only_fields, with_state as with_state_of};

use floor_words::{Field, Group, has_bit, put_bit};

/// vINTID: bits [31:0].
const VINTID: Field = Field {
    place: 0,
    width: 32,
};
/// pINTID, where HW is 1: bits [44:32].
const PINTID: Field = Field {
    place: 32,
    width: 13,
};
/// EOI, where HW is 0.
const EOI: u32 = 41;
/// Priority: bits [55:48].
const PRIORITY: Field = Field {
    place: 48,
    width: 8,
};
/// Group.
const GROUP: u32 = 60;
/// HW.
const HW: u32 = 61;
/// State: bits [63:62].
const STATE: Field = Field {
    place: 62,
    width: 2,
};
/// All that is not State: bits [61:0].
const BELOW_STATE: Field = Field {
    place: 0,
    width: 62,
};

/// The state of the interrupt in a list register (IHI 0069, ICH_LR<n>_EL2.State).
#[derive(Clone, Copy, Debug, PartialEq, Eq, Hash)]
pub enum LrState {
    Invalid,
    Pending,
    Active,
    /// Pending and active.
    Both,
}

impl LrState {
    ghost use Rattle.gic_lr.specs.Entry.{state_has_pending, state_has_active};

    /// Pending, be it active too or not.
    pub fn has_pending(self) -> bool
        ensures { result ≡ state_has_pending self }
    {
        matches!(self, LrState::Pending | LrState::Both)
    }

    /// Active, be it pending too or not.
    pub fn has_active(self) -> bool
        ensures { result ≡ state_has_active self }
    {
        matches!(self, LrState::Active | LrState::Both)
    }
}

/// What a list register holds (IHI 0069, ICH_LR<n>_EL2).
#[derive(Clone, Copy, Debug, PartialEq, Eq, Hash)]
pub struct LrEntry {
    /// The INTID that the guest sees.
    pub id: u32,
    /// 0 to 255; lower is more urgent.
    pub prio: u8,
    pub group: Group,
    pub state: LrState,
    /// A deactivation raises a maintenance interrupt; false where `hw` is there.
    pub eoi: bool,
    /// The INTID of the physical interrupt that a deactivation deactivates, below 8192, or none.
    pub hw: Option<u32>,
}

/// The number of a state in State.
fn number_of(state: LrState) -> u64
    ensures { result ≡ state_number state }
{
    match state {
        LrState::Invalid => 0,
        LrState::Pending => 1,
        LrState::Active => 2,
        LrState::Both => 3,
    }
}

/// The list register that holds an entry.
pub fn pack(entry: &LrEntry) -> u64
    requires { IsEntry entry.now }
    ensures value { result ≡ packed entry.now }
    ensures back { unpacked result ≡ entry.now }
{
    let source = match entry.hw {
        Some(number) => PINTID.put(u64::from(number)) + put_bit(true, HW),
        None => put_bit(entry.eoi, EOI),
    };
    let group = match entry.group {
        Group::G0 => 0,
        Group::G1 => put_bit(true, GROUP),
    };
    u64::from(entry.id)
        + source
        + PRIORITY.put(u64::from(entry.prio))
        + group
        + STATE.put(number_of(entry.state))
}

/// What a list register holds, whatever its bits are.
pub fn unpack(word: u64) -> LrEntry
    ensures value { result ≡ unpacked word }
    ensures entry { IsEntry result }
    ensures back { IsTrue (has_only_fields word) → packed result ≡ word }
{
    let is_hw = has_bit(word, HW);
    LrEntry {
        id: VINTID.of(word) as u32,
        prio: PRIORITY.of(word) as u8,
        group: if has_bit(word, GROUP) {
            Group::G1
        } else {
            Group::G0
        },
        state: match STATE.of(word) {
            0 => LrState::Invalid,
            1 => LrState::Pending,
            2 => LrState::Active,
            _ => LrState::Both,
        },
        eoi: !is_hw && has_bit(word, EOI),
        hw: is_hw.then_some(PINTID.of(word) as u32),
    }
}

/// A list register with another State, and all other bits as they are.
pub fn with_state(word: u64, state: LrState) -> u64
    ensures value { result ≡ with_state_of word state }
    ensures entry { unpacked result ≡ record (unpacked word) { state = state } }
{
    BELOW_STATE.of(word) + STATE.put(number_of(state))
}
