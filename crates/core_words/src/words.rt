//! The words of vCPUs and of GICD_CTLR.
ghost use Rattle.std.specs.Prelude.{◌≡◌, ◌<◌, ◌^◌, IsTrue, IfSome};
ghost use Rattle.core_words.specs.Forms.{vcpu_of, ctlr_of, packed_vcpu, packed_ctlr, IsCtlr, is_vcpu_word, is_ctlr_word};

use ideal_guest::{Enables, Field, has_bit, put_bit};

/// EnableLPIs.
const LPIS: u32 = 0;
/// The vCPU is kicked.
const KICK: u32 = 1;
/// EnableGrp0.
const ENABLE_GROUP_0: u32 = 0;
/// EnableGrp1.
const ENABLE_GROUP_1: u32 = 1;
/// Somebody has the mark.
const MARK: u32 = 2;
/// The actor's number, where MARK is 1: bits [8:3].
const MARKER: Field = Field { place: 3, width: 6 };

/// What a vCPU's word says.
#[derive(Clone, Copy, Debug, PartialEq, Eq, Hash)]
pub struct VcpuWord {
    /// EnableLPIs of its redistributor (IHI 0069, GICR_CTLR).
    pub lpis: bool,
    /// It is to scan again.
    pub kick: bool,
}

/// What GICD_CTLR's word says.
#[derive(Clone, Copy, Debug, PartialEq, Eq, Hash)]
pub struct CtlrWord {
    /// The group enables (IHI 0069, GICD_CTLR).
    pub enables: Enables,
    /// The number of the actor that copies them to all interrupts, below 64, or none: what RWP shows.
    pub mark: Option<u32>,
}

impl VcpuWord {
    /// What a vCPU's word says.
    pub fn of(word: u64) -> VcpuWord
        ensures { result ≡ vcpu_of word }
    {
        VcpuWord {
            lpis: has_bit(word, LPIS),
            kick: has_bit(word, KICK),
        }
    }

    /// The word of what a vCPU's says.
    pub fn pack(self) -> u64
        ensures value { result ≡ packed_vcpu self }
        ensures back { vcpu_of result ≡ self }
        ensures well_formed { IsTrue (is_vcpu_word result) }
    {
        put_bit(self.lpis, LPIS) + put_bit(self.kick, KICK)
    }
}

impl CtlrWord {
    /// What GICD_CTLR's word says.
    pub fn of(word: u64) -> CtlrWord
        ensures { result ≡ ctlr_of word }
    {
        CtlrWord {
            enables: Enables {
                group0: has_bit(word, ENABLE_GROUP_0),
                group1: has_bit(word, ENABLE_GROUP_1),
            },
            mark: has_bit(word, MARK).then_some(MARKER.of(word) as u32),
        }
    }

    /// The word of what GICD_CTLR's says.
    pub fn pack(self) -> u64
        requires { IsCtlr self }
        ensures value { result ≡ packed_ctlr self }
        ensures back { ctlr_of result ≡ self }
        ensures well_formed { IsTrue (is_ctlr_word result) }
    {
        let mark = match self.mark {
            Some(actor) => put_bit(true, MARK) + MARKER.put(u64::from(actor)),
            None => 0,
        };
        put_bit(self.enables.group0, ENABLE_GROUP_0)
            + put_bit(self.enables.group1, ENABLE_GROUP_1)
            + mark
    }
}
