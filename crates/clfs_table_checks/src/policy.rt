use clfs_lsn::{Policy, PolicyKind};
use clfs_policy::{Conflict, NotInstalled, Policies};

#[test]
fn policies_that_may_be_installed_and_removed(rt: HostRuntime) {
    let mut policies = Policies::none();
    assert!(rt; policies.remove(PolicyKind::Minimum) == Err(NotInstalled));
    assert!(rt; policies.install(Policy::Growth(2)) == Ok(()));
    assert!(rt; policies.install(Policy::Maximum(6)) == Ok(()));
    assert!(rt; policies.install(Policy::Automatic) == Ok(()));
    let refused = Err(Conflict { min: 2, max: 6 });
    assert!(rt; policies.install(Policy::Minimum(7)) == refused);
    assert!(rt; policies.remove(PolicyKind::Automatic) == Ok(()));
    let left = Policies {
        maximum: Some(6),
        minimum: None,
        growth: Some(2),
        automatic: false,
    };
    assert!(rt; policies == left);
}
