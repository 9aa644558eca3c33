//! The presets of a guest.
ghost use Rattle.std.specs.Prelude.{◌≡◌, ◌↔◌, IsTrue};
ghost use Rattle.gic_ram.specs.Words.{IsShape};
ghost use Rattle.gic_guest.specs.Good.{preset_key, is_addressed as is_addressed_in, IsGoodPreset};

use gic_ram::{GuestShape, Key, MAX_PRIORITY, PRIORITY_STEP, PRIVATE_COUNT, key_of};

/// The highest number of a group.
pub const MAX_GROUP: u8 = 1;

/// An interrupt that opens enabled.
#[derive(Clone, Copy, Debug, PartialEq, Eq, Hash)]
pub struct Preset {
    /// The INTID of an SGI, a PPI, an SPI or an extended SPI of the guest.
    pub id: u32,
    /// A multiple of 8 from 0 to 248; lower is more urgent.
    pub prio: u8,
    /// Edge-triggered, as each SGI is, or else level-sensitive.
    pub edge: bool,
    /// 0 or 1.
    pub group: u8,
    /// The target vCPU. None exactly for `id` below 32.
    pub to: Option<u32>,
    /// The vCPU of a private interrupt. None exactly for `id` from 32.
    pub vcpu: Option<u32>,
}

impl Preset {
    /// The interrupt that the preset opens.
    pub fn key(&self) -> Key
        ensures { result ≡ preset_key self.now }
    {
        let id = self.id;
        if id < PRIVATE_COUNT {
            return Key::Private {
                vcpu: self.vcpu.unwrap_or(0),
                id,
            };
        }
        Key::Spi(id)
    }

    /// Whether the preset names a vCPU exactly where its interrupt is private, and else a target that the guest
    /// has.
    fn is_addressed(&self, shape: &GuestShape) -> bool
        ensures { result ≡ is_addressed_in shape.now self.now }
    {
        if self.id < PRIVATE_COUNT {
            self.to.is_none() && self.vcpu.is_some()
        } else {
            self.vcpu.is_none() && self.to.is_some_and(|to| to < shape.vcpus)
        }
    }

    /// Whether a guest with these numbers may have the preset.
    pub fn is_good(&self, shape: &GuestShape) -> bool
        requires { IsShape shape.now }
        ensures { IsTrue result ↔ IsGoodPreset shape.now self.now }
    {
        key_of(self.id, self.vcpu.unwrap_or(0), shape) == Some(self.key())
            && self.is_addressed(shape)
            && self.prio <= MAX_PRIORITY
            && self.prio % PRIORITY_STEP == 0
            && self.group <= MAX_GROUP
            && (self.edge || !self.key().is_sgi())
    }
}
