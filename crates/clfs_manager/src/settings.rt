// What is set: the policies of a log. A change of these writes the base copy that follows the newest one, with the containers from the hold's on, so
// that a crash leaves the old settings or the new ones. No call here takes memory.
ghost use Rattle.std.specs.Prelude.{◌≡◌, ℕ, true, false, None, IfSome, IfNone, OnOk};
ghost use Rattle.clfs_model.specs.declared.call.Call.TheVariants as calls;
ghost use Rattle.clfs_model.specs.declared.reply.Reply.TheVariants as replies;
ghost use Rattle.clfs_model.specs.Policies.{is_installed, policy_refusal, with_policy, without_policy};
ghost use Rattle.clfs_manager.specs.Calls.{WritesAs};
ghost use Rattle.clfs_manager.specs.Copying.{KeepsFiles};
ghost use Rattle.clfs_policy.specs.Ranges.{AreAllowed};
ghost use Rattle.clfs_manager.specs.Memory.{IsSound};
ghost use Rattle.clfs_manager.specs.Settings.{KeepsTables, change_to, with_policies};
ghost use Rattle.clfs_manager.specs.Storing.{StoresState};
ghost use Rattle.clfs_manager.specs.Written.{CopyIsCurrent, IsCurrent};

use crate::log::Log;
use crate::manager::Manager;
use crate::survivors::calls_follow_laws;
use clfs_disk::{Disk, Failed};
use clfs_lsn::{Policy, PolicyKind};
use clfs_model::{Refusal, State};
use clfs_physical::Change;
use clfs_policy::Policies;
use clfs_recover::{low_containers_are_left_out, settings_leave_the_records};
use clfs_told::Told;

// The state with these policies.
fn with_policies(state: &Told<State>, policies: &Policies) -> Told<State>
    ensures { result.value ≡ with_policies policies.now state.now.value }
{
    state.next(policies)
}

// The policies as a base copy has them.
fn change_to(policies: &Policies) -> Change
    ensures { result ≡ change_to policies.now }
{
    Change::Policies {
        automatic: policies.automatic,
        maximum: policies.maximum.unwrap_or(0),
        minimum: policies.minimum.unwrap_or(0),
        growth: policies.growth.unwrap_or(0),
    }
}

impl Log {
    // The policies with one in place of that of its kind.
    fn policies_with(&self, policy: Policy) -> Policies
        requires sound { IsSound self.now }
        requires allowed { policy_refusal self.now.state.value policy ≡ None }
        ensures state { with_policies result self.now.state.value ≡ with_policy self.now.state.value policy }
        ensures allowed { AreAllowed result }
    {
        let mut policies = self.policies;
        let _installed = policies.install(policy);
        policies
    }

    // The policies without that of a kind, where there is one.
    fn policies_without(&self, kind: PolicyKind) -> Option<Policies>
        requires sound { IsSound self.now }
        ensures none { IfNone result (is_installed self.now.state.value kind ≡ false) }
        ensures some { IfSome result (λ _. is_installed self.now.state.value kind ≡ true) }
        ensures state { IfSome result (λ policies. with_policies policies self.now.state.value ≡ without_policy self.now.state.value kind) }
        ensures allowed { IfSome result AreAllowed }
    {
        let mut policies = self.policies;
        match policies.remove(kind) {
            Ok(()) => Some(policies),
            Err(_) => None,
        }
    }

    // The log has these policies, on the disk too. After a fault it is broken.
    pub fn store_policies<D: Disk>(
        &mut self,
        disk: &mut D,
        policies: Policies,
    ) -> Result<(), Failed>
        requires sound { IsSound self.old }
        requires allowed { AreAllowed policies }
        ensures change { StoresState result (with_policies policies self.old.state.value) (D.state disk.old) (D.state disk.new) self.old self.new }
        ensures same { OnOk result (KeepsTables self.old self.new) }
        ensures current { OnOk result (IsCurrent self.new.physical.image) }
        ensures files { OnOk result (KeepsFiles (D.state disk.old) (D.state disk.new) self.old.physical self.new.physical) }
    {
        settings_leave_the_records();
        low_containers_are_left_out();
        let _newest = self.physical.image();
        let first = self.hold().container();
        if let Err(failed) = self.physical.write_copy(disk, first, &change_to(&policies)) {
            self.break_log();
            return Err(failed);
        }
        self.state = with_policies(&self.state, &policies);
        self.policies = policies;
        Ok(())
    }
}

impl<D: Disk> Manager<D> {
    /// Installs a policy in place of one of its kind, on the disk too. It changes no size. Refused where the value is outside its range, which is
    /// told.
    pub fn install_policy(&mut self, policy: Policy) -> Result<(), Refusal>
        ensures call { (client : ℕ) → WritesAs D.state client (calls.InstallPolicy policy) (λ _. replies.Done) result self.old self.new }
        ensures current { CopyIsCurrent result (D.state self.new.1) }
    {
        calls_follow_laws();
        if self.log.broken {
            return Err(Refusal::Broken);
        }
        if let Some(refusal) = self.log.policy_refusal(policy) {
            return Err(refusal);
        }
        let policies = self.log.policies_with(policy);
        if self.log.store_policies(&mut self.disk, policies).is_err() {
            return Err(Refusal::DiskFault);
        }
        Ok(())
    }

    /// Takes the policy of a kind away, on the disk too. Refused where there is none.
    pub fn remove_policy(&mut self, kind: PolicyKind) -> Result<(), Refusal>
        ensures call { (client : ℕ) → WritesAs D.state client (calls.RemovePolicy kind) (λ _. replies.Done) result self.old self.new }
        ensures current { CopyIsCurrent result (D.state self.new.1) }
    {
        calls_follow_laws();
        if self.log.broken {
            return Err(Refusal::Broken);
        }
        let Some(policies) = self.log.policies_without(kind) else {
            return Err(Refusal::PolicyNotInstalled);
        };
        if self.log.store_policies(&mut self.disk, policies).is_err() {
            return Err(Refusal::DiskFault);
        }
        Ok(())
    }
}
