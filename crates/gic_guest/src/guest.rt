//! The guests of a scenario.
ghost use Rattle.std.specs.Prelude.{◌↔◌, IsTrue, All};
ghost use Rattle.gic_ram.specs.Words.{IsShape};
ghost use Rattle.gic_guest.specs.Good.{IsGoodPreset, IsGoodGuest};

use crate::preset::Preset;
use gic_ram::{GuestShape, ListOf};

/// Guests, in order of their numbers from 0.
pub type Guests = ListOf<GuestSpec>;
/// Presets, in order; a later one of the same interrupt replaces an earlier one.
pub type PresetList = ListOf<Preset>;

/// One guest as it opens.
#[derive(Debug, Drop)]
pub struct GuestSpec {
    pub shape: GuestShape,
    /// Whether GICD_CTLR opens with both group enables, and each vCPU with PMR 0xF0 and IGRPEN1 = 1.
    pub on: bool,
    pub presets: PresetList,
}

/// Whether a guest with these numbers may have each of the presets.
fn are_good_presets(presets: &[Preset], shape: &GuestShape) -> bool
    requires { IsShape shape.now }
    ensures { IsTrue result ↔ All (IsGoodPreset shape.now) presets.now }
{
    presets.iter().all(|preset| preset.is_good(shape))
}

impl GuestSpec {
    /// Whether the guest's numbers are in range and its presets are good.
    pub fn is_good(&self) -> bool
        ensures { IsTrue result ↔ IsGoodGuest self.now }
    {
        self.shape.is_in_range() && are_good_presets(self.presets.as_slice(), &self.shape)
    }
}
