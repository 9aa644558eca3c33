//! The scan of trap mode: the first interrupt that is deliverable to a vCPU.
ghost use Rattle.std.specs.Prelude.{◌≡◌, true};
ghost use Rattle.pe_loop.specs.Stay.{IsUp};
ghost use Rattle.pe_icc.specs.First.{CanClaimFirst, ClaimsFirst, ScansFirst};

use crate::end::{chosen_as, empty};
use pe_loop::{Loaded, LrState, Offer, Port, claim_into, end_scan, look_round};

/// Claims an interrupt, if there is one, into list register 0 with State 1: whether it did not come.
fn claim_first<P: Port>(port: &mut P, vcpu: &mut Loaded, first: Option<Offer>) -> bool
    requires { CanClaimFirst (P.seen port.old) vcpu.old first }
    ensures { ClaimsFirst (P.seen port.old) (P.seen port.new) vcpu.old vcpu.new first result }
{
    match first {
        Some(offer) => {
            let choice = chosen_as(offer.key, &offer.irq, LrState::Pending);
            claim_into(port, vcpu, 0, &choice)
        }
        None => false,
    }
}

/// Takes the first deliverable interrupt to the interface of a vCPU in trap mode, into list register 0 with State 1 while
/// ICH_HCR is En: the vCPU takes its candidate index, looks at its candidates, claims the first of those found at no interface
/// and not wanted, and marks the rest for itself.
pub(crate) fn scan_first<P: Port>(port: &mut P, vcpu: Loaded) -> Loaded
    requires up { IsUp (P.seen port.old) vcpu }
    requires trapping { vcpu.trapping ≡ true }
    ensures { ScansFirst (P.seen port.old) (P.seen port.new) vcpu result }
{
    let chooser = look_round(port, vcpu.regs.n);
    let mut bare = empty(vcpu);
    let failed = claim_first(port, &mut bare, chooser.first());
    end_scan(port, failed);
    bare
}
