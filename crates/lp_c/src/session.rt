//! An engine with the groups of its last reply, and the certificate that was asked for last.
ghost use Rattle.std.specs.Prelude.{◌≡◌, ◌↔◌, ◌≤◌, true, false, Err, None, [], is_some, length, IfOk, OnErr, OnOk};
ghost use Rattle.std.specs.Option.{option_map};
ghost use Rattle.lp_definitions.specs.Events.{group_numbers};
ghost use Rattle.lp_transition.specs.declared.engine.step.Halt.TheVariants.{JournalFull};
ghost use Rattle.lp_c.specs.Codes.{groups_in, told_of};
ghost use Rattle.lp_c.specs.Held.{IsStepped, cert_of, reply_to};

use crate::codes::{Told, told_of};
use livepatch::{AnySimulator, Cert, Event, GroupId, Halt, Reply, What};
use std::alloc::{AllocError, Global};
use std::marker::Model;

/// An engine with the groups that switched at its last event, so that none is lost where C asks late, and with the certificate
/// that was asked for since.
pub struct Session {
    simulator: AnySimulator,
    groups: Vec<GroupId>,
    cert: Option<Cert>,
}

/// By hand, so that the proof of who owns one lets go of it in one step, not field by field.
impl Drop for Session {
    fn drop(self) {
        let Session {
            simulator: _,
            groups: _,
            cert: _,
        } = self;
    }
}

impl Model for Session {
    ghost use Rattle.lp_definitions.specs.Events.{group_numbers};
    ghost use Rattle.lp_c.specs.Held.{Held};

    ghost Value = { Held };

    ghost view = { λ s. record { named = s.simulator; groups = group_numbers s.groups.items; cert = s.cert } };
}

impl Session {
    /// A run before its first event.
    pub(crate) fn new(alloc: Global, simulator: AnySimulator) -> Session
        ensures { result ≡ record { named = simulator; groups = []; cert = None } }
    {
        Session {
            simulator,
            groups: Vec::new(alloc),
            cert: None,
        }
    }

    /// Takes one event, and tells the reply. Where it fails all is as it was.
    pub(crate) fn step(&mut self, alloc: Global, event: Event) -> Result<Told, Halt>
        ensures full { (result ≡ Err JournalFull) ↔ (1000000 ≤ length self.old.named.simulated.run.events) }
        ensures told { IfOk result (λ told. told ≡ told_of (reply_to self.old event)) }
        ensures stepped { OnOk result (IsStepped event self.old self.new) }
        ensures unchanged { OnErr result (self.new ≡ self.old) }
    {
        let reply = self.simulator.step(alloc, event)?;
        let told = told_of(&reply);
        keep_groups(alloc, reply, &mut self.groups);
        if self.cert.is_some() {
            forget(&mut self.cert);
        }
        Ok(told)
    }

    /// Keeps the certificate that a group waits, and says whether it does; else all is as it was.
    pub(crate) fn certify(&mut self, alloc: Global, group: GroupId) -> Result<bool, AllocError>
        ensures found { IfOk result (λ found. found ≡ is_some (cert_of self.old group.0)) }
        ensures kept { IfOk result (λ found. found ≡ true → self.new ≡ record self.old { cert = cert_of self.old group.0 }) }
        ensures none { IfOk result (λ found. found ≡ false → self.new ≡ self.old) }
        ensures unchanged { OnErr result (self.new ≡ self.old) }
    {
        let cert = self.simulator.certificate(alloc, group)?;
        if cert.is_none() {
            return Ok(false);
        }
        self.cert = cert;
        Ok(true)
    }

    /// The certificate that was asked for since the last event.
    pub(crate) fn cert(&self) -> Option<&Cert>
        ensures { option_map (λ cert. cert.now) result ≡ self.now.cert }
    {
        self.cert.as_ref()
    }

    /// The simulator, which tells how its tasks stand.
    pub(crate) fn simulator(&self) -> &AnySimulator
        ensures { result.now ≡ self.now.named }
    {
        &self.simulator
    }

    /// The groups that switched at the last event, in increasing order.
    pub(crate) fn groups(&self) -> &[GroupId]
        ensures { group_numbers result.now ≡ self.now.groups }
    {
        self.groups.as_slice()
    }
}

/// Keeps the groups of a reply in place of those of the one before. Most events have none, and come after one that had none.
#[inline(always)]
fn keep_groups(alloc: Global, reply: Reply, groups: &mut Vec<GroupId>)
    ensures { group_numbers groups.new.items ≡ groups_in reply.what }
{
    match reply.what {
        What::Switched(switched) => *groups = switched.into_vec(),
        _ => {
            if !groups.is_empty() {
                forget_groups(alloc, groups);
            }
        }
    }
}

/// Frees the groups of an event. Out of line, since most events find none.
#[cold]
#[inline(never)]
fn forget_groups(alloc: Global, groups: &mut Vec<GroupId>)
    ensures { groups.new.items ≡ [] }
{
    *groups = Vec::new(alloc);
}

/// Frees the certificate that was asked for. Out of line, since most events find none.
#[cold]
#[inline(never)]
fn forget(cert: &mut Option<Cert>)
    ensures { cert.new ≡ None }
{
    *cert = None;
}
