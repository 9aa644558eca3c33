//! Sets of vCPUs.
use port_core::{NO_VCPUS, with_all, with_vcpu, without_vcpu};

#[test]
fn sets(rt: HostRuntime) {
    assert_eq!(rt; with_vcpu(NO_VCPUS, 31).0, 1 << 31);
    let first = with_vcpu(NO_VCPUS, 0);
    assert_eq!(rt; with_all(first, &[Some(2), None, Some(2)]).0, 5);
    let both = with_vcpu(first, 2);
    assert_eq!(rt; without_vcpu(both, 2).0, 1);
}
