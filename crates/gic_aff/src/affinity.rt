//! The affinities of vCPUs.
ghost use Rattle.std.specs.Prelude.{◌≡◌, ◌≢◌, ◌<◌, ℕ, IfSome, IfNone};
ghost use Rattle.floor_words.specs.Words.{IsShape};
ghost use Rattle.gic_aff.specs.Affinity.{affinity_of, vcpu_of as vcpu_with};

use floor_words::{GuestShape, Route, target_in};

/// The vCPU that has an affinity, which is given as Aff3, Aff2, Aff1 and Aff0 from the highest byte. None
/// exactly where no vCPU of the guest has it.
pub fn vcpu_of(affinity: u32, shape: &GuestShape) -> Option<u32>
    requires { IsShape shape.now }
    ensures value { result ≡ vcpu_with affinity shape.now }
    ensures found { IfSome result (λ vcpu. (vcpu < shape.now.vcpus) × (affinity_of vcpu ≡ affinity)) }
    ensures none { IfNone result ((vcpu : ℕ) → vcpu < shape.now.vcpus → affinity_of vcpu ≢ affinity) }
{
    target_in(Route::Affinity(affinity), shape)
}
