// The installed policies, and the two calls that change them.
ghost use Rattle.std.specs.Prelude.{◌≡◌, ◌≢◌, ◌≤◌, ◌↔◌, Some, None, false, OnOk, OnErr, IsErr, IfErr};
ghost use Rattle.clfs_policy.specs.Ranges.{outside, conflict_of, installed, is_installed, removed, AreAllowed};

use clfs_lsn::{FEWEST_CONTAINERS, GREATEST_GROWTH, MOST_CONTAINERS, Policy, PolicyKind};
use thiserror::Error;

/// A policy's value is outside its range.
#[derive(Clone, Copy, Debug, PartialEq, Eq, Error)]
#[error("the value is outside {min} to {max}")]
pub struct Conflict {
    /// The least value.
    pub min: u32,
    /// The greatest value.
    pub max: u32,
}

/// No policy of the kind is installed.
#[derive(Clone, Copy, Debug, PartialEq, Eq, Error)]
#[error("no such policy is installed")]
pub struct NotInstalled;

/// The installed policies, of each kind one at most.
#[derive(Clone, Copy, Debug, PartialEq, Eq)]
pub struct Policies {
    /// The most containers of the log, where it is installed.
    pub maximum: Option<u16>,
    /// The fewest containers of the log, where it is installed.
    pub minimum: Option<u16>,
    /// By how many containers the log grows in one step, where it is installed.
    pub growth: Option<u16>,
    /// Whether a log that is full grows by itself.
    pub automatic: bool,
}

impl Policies {
    /// None is installed.
    pub const fn none() -> Policies
        ensures maximum { result.maximum ≡ None }
        ensures minimum { result.minimum ≡ None }
        ensures growth { result.growth ≡ None }
        ensures automatic { result.automatic ≡ false }
        ensures allowed { AreAllowed result }
    {
        Policies {
            maximum: None,
            minimum: None,
            growth: None,
            automatic: false,
        }
    }

    /// Installs a policy in place of one of its kind. A maximum goes from the installed minimum, else 2, to 256; a minimum from 2
    /// to the installed maximum, else 256; a growth rate from 1 to 254. Automatic growth has no value.
    pub fn install(&mut self, policy: Policy) -> Result<(), Conflict>
        ensures refused { IsErr result ↔ (conflict_of self.old policy ≢ None) }
        ensures range { IfErr result (λ conflict. conflict_of self.old policy ≡ Some conflict) }
        ensures installed { OnOk result (self.new ≡ installed self.old policy) }
        ensures unchanged { OnErr result (self.new ≡ self.old) }
        ensures allowed { AreAllowed self.old → AreAllowed self.new }
    {
        match policy {
            Policy::Maximum(value) => {
                let least = self.minimum.unwrap_or(FEWEST_CONTAINERS);
                within(value, least, MOST_CONTAINERS)?;
                self.maximum = Some(value);
            }
            Policy::Minimum(value) => {
                let greatest = self.maximum.unwrap_or(MOST_CONTAINERS);
                within(value, FEWEST_CONTAINERS, greatest)?;
                self.minimum = Some(value);
            }
            Policy::Growth(value) => {
                within(value, 1, GREATEST_GROWTH)?;
                self.growth = Some(value);
            }
            Policy::Automatic => self.automatic = true,
        }
        Ok(())
    }

    /// Takes the policy of a kind away.
    pub fn remove(&mut self, kind: PolicyKind) -> Result<(), NotInstalled>
        ensures refused { IsErr result ↔ (is_installed self.old kind ≡ false) }
        ensures removed { self.new ≡ removed self.old kind }
        ensures unchanged { OnErr result (self.new ≡ self.old) }
        ensures allowed { AreAllowed self.old → AreAllowed self.new }
    {
        let there = match kind {
            PolicyKind::Maximum => self.maximum.take().is_some(),
            PolicyKind::Minimum => self.minimum.take().is_some(),
            PolicyKind::Growth => self.growth.take().is_some(),
            PolicyKind::Automatic => std::mem::replace(&mut self.automatic, false),
        };
        if there { Ok(()) } else { Err(NotInstalled) }
    }
}

// Whether a value is in its range.
fn within(value: u16, least: u16, greatest: u16) -> Result<(), Conflict>
    ensures refused { IsErr result ↔ (outside value least greatest ≢ None) }
    ensures range { IfErr result (λ conflict. outside value least greatest ≡ Some conflict) }
    ensures inside { OnOk result ((least ≤ value) × (value ≤ greatest)) }
{
    if value < least || value > greatest {
        return Err(Conflict {
            min: least as u32,
            max: greatest as u32,
        });
    }
    Ok(())
}
