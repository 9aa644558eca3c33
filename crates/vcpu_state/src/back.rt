//! What comes back from list registers.
ghost use Rattle.std.specs.Prelude.{◌≡◌, ◌<◌};
ghost use Rattle.vcpu_state.specs.Fold.{back_of, back_at, folded};

use gic_ich::{Back, Held, HeldIrq, IchRegs, MAX_LIST_REGISTERS, lr_unpack as unpack};

/// What an interrupt brings back from a list register.
fn brought_back(word: u64, held: &HeldIrq) -> Back
    ensures { result ≡ back_of word held.now }
{
    let state = unpack(word).state;
    Back {
        rise: held.rise && state.has_pending(),
        soft: held.soft && state.has_pending(),
        active: state.has_active(),
    }
}

/// What comes back from the list register at a place.
fn back_from(regs: &IchRegs, held: &Held, place: usize) -> Option<Back>
    requires { place < MAX_LIST_REGISTERS }
    ensures { result ≡ back_at regs.now held.now place }
{
    let held = held[place]?;
    Some(brought_back(regs.lr[place], &held))
}

/// What each held interrupt brings back, by the list register at its place: the causes that no
/// acknowledge consumed, where the State is 1 or 3, and that it is active, where the State is 2 or 3.
/// None where nothing is held.
pub fn fold(regs: &IchRegs, held: &Held) -> [Option<Back>; MAX_LIST_REGISTERS]
    ensures { result ≡ folded regs.now held.now }
{
    let mut back = [None; MAX_LIST_REGISTERS];
    for (place, slot) in back.iter_mut().enumerate() {
        *slot = back_from(regs, held, place);
    }
    back
}
